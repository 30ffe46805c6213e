// The calls of the script's frames, and how those that are lent an output run.
use crate::frame::{Asked, Call};
use crate::print::show_hex;
use crate::stop::Stop;
use crate::{fill, listed, show, show_check, show_decode, tested};
use house_layout::Refusal;
use limits::WORD_CAPACITY;
use search::Word;
use std::io::{Read, Write};

// The largest outputs of a word and of a file.
const WORD_ROOM: usize = 200;

const FILE_ROOM: usize = 60000;

// Reads the word of a frame: its length, then 31 symbols.
pub fn read_word<R: Read>(input: &mut R) -> Result<Word, Stop> {
    let mut given = [0u8; 32];
    fill(&mut given, 32, input)?;
    let mut symbols = [0u8; WORD_CAPACITY];
    symbols.copy_from_slice(&given[1..]);
    Ok(Word {
        len: usize::from(given[0]),
        symbols,
    })
}

// The call that writes a file. Its room is the largest, so no other call's frame pays for it.
fn run_write<R: Read, W: Write>(asked: Asked, input: &mut R, out: &mut W) -> Result<(), Stop> {
    let mut space = [0u8; FILE_ROOM + 32];
    let n = asked.frame.output;
    run_lent("write", n, &mut space, input, out, |lent| {
        canonical::write_call(asked.file, lent).map(Some)
    })
}

// Runs the call of a frame, and reads what else the frame has. No call has an unknown letter.
pub fn run<R: Read, W: Write>(asked: Asked, input: &mut R, out: &mut W) -> Result<(), Stop> {
    let Asked { frame: f, file } = asked;
    match f.call {
        None => {}
        Some(Call::Check) => show_check(file, out)?,
        Some(Call::Decode) => show_decode(file, out)?,
        Some(Call::Path) => {
            let w = read_word(input)?;
            let mut space = [0u8; WORD_ROOM + 32];
            run_lent("path", f.output, &mut space, input, out, |lent| {
                paths::path_call(file, f.first, f.second, w, lent)
            })?
        }
        Some(Call::NextWord) => {
            let w = read_word(input)?;
            let mut space = [0u8; WORD_ROOM + 32];
            run_lent("next-word", f.output, &mut space, input, out, |lent| {
                paths::next_call(file, f.first, f.second, w, lent)
            })?
        }
        Some(Call::Write) => run_write(asked, input, out)?,
        Some(Call::Test) => tested::run_test(asked, input, out)?,
        Some(Call::Permit) => listed::run_list(asked, input, out, listed::show_permit)?,
        Some(Call::Compare) => listed::run_list(asked, input, out, listed::show_compare)?,
        Some(Call::Text) => listed::run_list(asked, input, out, listed::show_text)?,
    }
    Ok(())
}

// Reads n bytes and the 16 on each side into the space, lends the n to the call, and shows its reply and all of the bytes.
fn run_lent<R: Read, W: Write, F: FnOnce(&mut [u8]) -> Result<Option<usize>, Refusal> + Drop>(
    name: &str,
    n: usize,
    space: &mut [u8],
    input: &mut R,
    out: &mut W,
    call: F,
) -> Result<(), Stop>
    requires { F.IsAlwaysCallable call }
{
    let end = n.checked_add(32).ok_or(Stop::Ended)?;
    fill(space, end, input)?;
    let reply = call(&mut space[16..end - 16]);
    show(name, reply, out, |found, out| match found {
        None => writeln!(out, " none"),
        Some(k) => writeln!(out, " {k}"),
    })?;
    show_hex(&space[..end], "output ", out)?;
    Ok(())
}
