// Runs calls from a script on standard input and prints each reply. The script's frames are described in tests/script.py.
// A read or a write that fails ends it with that error.
#![tactic(auto)]

ghost use Rattle.std.specs.Prelude.{◌≤◌, length, OnOk};

use frame::Asked;
use house_file::House;
use house_layout::Refusal;
use std::io;
use std::io::{Read, Write};
use stop::Stop;

mod calls;
mod frame;
mod listed;
mod print;
mod stop;
mod tested;

// Room for a file, a rule list, or its text.
pub const LARGE: usize = 65536;

// Prints the reply of a call: its name, then its refusal, or its answer by the closure.
pub fn show<T: Drop, W: Write, F: FnOnce(T, &mut W) -> io::Result<()> + Drop>(
    name: &str,
    reply: Result<T, Refusal>,
    out: &mut W,
    answer: F,
) -> io::Result<()>
    requires { F.IsAlwaysCallable answer }
{
    write!(out, "{name}")?;
    match reply {
        Err(e) => writeln!(out, " refused {}", u8::from(e)),
        Ok(given) => answer(given, out),
    }
}

pub fn show_check<W: Write>(file: &[u8], out: &mut W) -> io::Result<()> {
    show("check", house_file::check(file), out, |(), out| {
        writeln!(out, " accepted")
    })
}

// The labels of a pair under a name, where there are any.
fn show_labels<W: Write>(
    name: &str,
    u: usize,
    v: usize,
    labels: u32,
    out: &mut W,
) -> io::Result<()> {
    if labels != 0 {
        writeln!(out, "{name} {u} {v} {labels:02X}")?;
    }
    Ok(())
}

// The relations and unknown relations of one party.
fn show_row<W: Write>(u: usize, row: &masks::Row, out: &mut W) -> io::Result<()> {
    for (v, kinds) in row.masks.iter().enumerate() {
        show_labels("relation", u, v, kinds % 256, out)?;
        show_labels("unknown", u, v, kinds / 256 % 256, out)?;
    }
    Ok(())
}

fn show_house<W: Write>(house: House, out: &mut W) -> io::Result<()> {
    let h = house.header;
    writeln!(
        out,
        " {} {} {} {}",
        h.parties, h.labels, h.language, h.longest
    )?;
    write!(out, "permits")?;
    for permits in house.permits.masks {
        write!(out, " {permits:08X}")?;
    }
    writeln!(out)?;
    for (u, row) in house.kinds.rows.iter().enumerate() {
        show_row(u, row, out)?;
    }
    Ok(())
}

pub fn show_decode<W: Write>(file: &[u8], out: &mut W) -> io::Result<()> {
    show("decode", house_file::read(file), out, |house, out| {
        show_house(house, out)
    })
}

// Reads the n bytes that come next into the space.
pub fn fill<R: Read>(space: &mut [u8], n: usize, input: &mut R) -> Result<(), Stop>
    ensures { OnOk result (n ≤ length space.new) }
{
    if space.len() < n || reading::read_full(input, &mut space[..n])? < n {
        return Err(Stop::Ended);
    }
    Ok(())
}

// Reads and runs one frame.
fn next<R: Read, W: Write>(input: &mut R, out: &mut W) -> Result<(), Stop> {
    let frame = frame::read(input)?;
    let n = frame.file;
    let mut space = [0u8; LARGE];
    fill(&mut space, n, input)?;
    let file = &space[..n];
    calls::run(Asked { frame, file }, input, out)
}

// Kept: a proved `loop` needs a measure, and `R.remaining`, which may be none, is no number; no script has so many frames.
fn main(rt: HostRuntime) -> io::Result<()> {
    let mut input = rt.stdin();
    let mut out = rt.stdout();
    for _ in 0..u64::MAX {
        match next(&mut input, &mut out) {
            Ok(()) => {}
            Err(Stop::Ended) => break,
            Err(Stop::Failed(e)) => return Err(e),
        }
    }
    Ok(())
}
