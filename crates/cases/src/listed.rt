// The calls that are given a rule list: permit, compare, and the list's text.
use crate::frame::Asked;
use crate::print::show_hex;
use crate::stop::Stop;
use crate::{LARGE, fill, show};
use comparison::Difference;
use house_layout::Refusal;
use mining::Pair;
use std::io;
use std::io::{Read, Write};

pub fn show_permit<W: Write>(asked: Asked, list: &[u8], out: &mut W) -> io::Result<()> {
    let f = asked.frame;
    let reply = rules::permit_call(asked.file, list, f.first, f.second);
    show("permit", reply, out, |permitted, out| {
        writeln!(out, " {}", if permitted { "yes" } else { "no" })
    })
}

fn show_difference<W: Write>(p: Pair, side: &str, out: &mut W) -> io::Result<()> {
    writeln!(out, " {} {} {side}", p.first, p.second)
}

pub fn show_compare<W: Write>(asked: Asked, list: &[u8], out: &mut W) -> io::Result<()> {
    let reply = comparison::compare_call(asked.file, list);
    show("compare", reply, out, |found, out| match found {
        None => writeln!(out, " same"),
        Some(Difference::OnlyFile(p)) => show_difference(p, "file", out),
        Some(Difference::OnlyList(p)) => show_difference(p, "list", out),
    })
}

// The text of a list that is right for the file; none where the space may be too small.
fn text_call<'a>(
    asked: Asked,
    list: &[u8],
    space: &'a mut [u8],
) -> Result<Option<&'a [u8]>, Refusal> {
    let a = graph::load(asked.file)?;
    if !rule_bytes::check_list(list, a.words) {
        return Err(Refusal::RuleList);
    }
    if space.len() / 3 < list.len() {
        return Ok(None);
    }
    let k = rule_text::list_text(list, space);
    Ok(space.get(..k))
}

pub fn show_text<W: Write>(asked: Asked, list: &[u8], out: &mut W) -> io::Result<()> {
    let mut space = [0u8; LARGE];
    let reply = text_call(asked, list, &mut space);
    show("text", reply, out, |found, out| match found {
        None => Ok(()),
        Some(text) => show_hex(text, " ", out),
    })
}

// Reads the list of a frame and runs its call.
pub fn run_list<R: Read, W: Write, F: FnOnce(Asked<'_>, &[u8], &mut W) -> io::Result<()> + Drop>(
    asked: Asked,
    input: &mut R,
    out: &mut W,
    call: F,
) -> Result<(), Stop>
    requires { F.IsAlwaysCallable call }
{
    let mut list = [0u8; LARGE];
    let n = asked.frame.given;
    fill(&mut list, n, input)?;
    call(asked, &list[..n], out)?;
    Ok(())
}
