// The whole text of a file: the verdict's line, and the list or why there is none.
ghost use Rattle.std.specs.Prelude.{List, ℕ, ◌≤◌, length, Ok};
ghost use Rattle.graph.specs.FileMatter.{matter_of};
ghost use Rattle.conversion.specs.declared.verdict.Verdict.TheVariants.{Convertible};
ghost use Rattle.fields.specs.promises.Writing.{Wrote};
ghost use Rattle.report.specs.promises.Prefix.{PrefixLength, text_room, ListOf, PartRoom};
ghost use Rattle.report.specs.Report.{list_part, file_text};

use crate::line::{first_line, refused_line};
use conversion::{LONGEST_TERM, Verdict};
use house_layout::Refusal;

// The longest list that is printed, room for its text with the line before it, and one byte more than the longest file has.
pub const LIST_LIMIT: usize = 65536;

pub const TEXT_ROOM: usize = 64 + 3 * LIST_LIMIT;

pub const READ_LIMIT: usize = house_layout::LONGEST_FILE + 1;

// The list of a convertible file as text, or "refused 14" where it is above 65,536 bytes. Three bytes for each byte of the list are enough.
fn list_part(list: &[u8], k: usize, text: &mut [u8]) -> usize
    requires { PartRoom list.now k (length text.old) }
    ensures { (f : List ℕ) → ListOf f k list.now
        → Wrote text.old 0 (list_part (matter_of f) (Ok (Convertible k))) text.new result }
{
    if k <= LIST_LIMIT {
        return rule_text::list_text(&list[..k], text);
    }
    refused_line(Refusal::Output, text)
}

// What permitconv prints for a file, from the first byte on, and its length: 64 bytes are enough for the line.
#[tactic(auto, using(crate::proofs::ReportLaws::report_laws))]
pub fn write_report(file: &[u8], text: &mut [u8]) -> usize
    requires { text_room ≤ length text.old }
    ensures wrote { Wrote text.old 0 (file_text file.now) text.new result }
    ensures prefix_length { PrefixLength result text.new }
{
    let mut list = [0u8; LIST_LIMIT + LONGEST_TERM];
    let v = conversion::convert(file, &mut list, LIST_LIMIT);
    let end = first_line(v, text);
    match v {
        Ok(Verdict::Convertible(k)) => end + list_part(&list, k, &mut text[end..]),
        _ => end,
    }
}
