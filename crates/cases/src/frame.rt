// What a frame of the script begins with, and its file.
ghost use Rattle.std.specs.Prelude.{◌+◌, ◌<◌};

use crate::fill;
use crate::stop::Stop;
use std::io::Read;

// What a frame asks for.
#[derive(Clone, Copy, Debug, PartialEq, Eq)]
pub enum Call {
    Check,
    Decode,
    Path,
    NextWord,
    Test,
    Permit,
    Text,
    Compare,
    Write,
}

// No call has this letter.
#[derive(Clone, Copy, Debug, PartialEq, Eq)]
pub struct UnknownCall;

impl TryFrom<u8> for Call {
    type Error = UnknownCall;

    fn try_from(letter: u8) -> Result<Call, UnknownCall> {
        match letter {
            b'c' => Ok(Call::Check),
            b'd' => Ok(Call::Decode),
            b'p' => Ok(Call::Path),
            b'n' => Ok(Call::NextWord),
            b't' => Ok(Call::Test),
            b'r' => Ok(Call::Permit),
            b'x' => Ok(Call::Text),
            b'm' => Ok(Call::Compare),
            b'w' => Ok(Call::Write),
            _ => Err(UnknownCall),
        }
    }
}

// The call, where its letter is known, the two parties, and how many bytes of each kind follow.
#[derive(Clone, Copy)]
pub struct Frame {
    pub call: Option<Call>,
    pub first: usize,
    pub second: usize,
    pub file: usize,
    pub given: usize,
    pub output: usize,
}

// A frame and the file that follows it.
#[derive(Clone, Copy)]
pub struct Asked<'a> {
    pub frame: Frame,
    pub file: &'a [u8],
}

// Four bytes, low byte first.
fn u32_at(head: &[u8; 24], at: usize) -> usize
    requires { at + 3 < 24 }
{
    u32::from_le_bytes([head[at], head[at + 1], head[at + 2], head[at + 3]]) as usize
}

// The next frame's numbers.
pub fn read<R: Read>(input: &mut R) -> Result<Frame, Stop> {
    let mut head = [0u8; 24];
    fill(&mut head, 24, input)?;
    Ok(Frame {
        call: Call::try_from(head[0]).ok(),
        first: usize::from(head[1]),
        second: usize::from(head[2]),
        file: u32_at(&head, 4),
        given: u32_at(&head, 8),
        output: u32_at(&head, 12),
    })
}
