// The lines of the report, written to a lent slice; every other byte is kept.
ghost use Rattle.std.specs.Prelude.{◌+◌, ◌++◌, ◌≤◌, length, Ok};
ghost use Rattle.fields.specs.Decimal.{decimal_text};
ghost use Rattle.fields.specs.promises.Writing.{Wrote};
ghost use Rattle.rule_text.specs.Text.{line_end};
ghost use Rattle.conversion.specs.declared.verdict.Verdict.TheVariants.{NoWord, Rival};
ghost use Rattle.report.specs.Report.{pair_text, refused_line, verdict_line};

use conversion::Verdict;
use fields::{put_bytes, put_decimal};
use house_layout::Refusal;
use mining::Pair;

#[tactic(auto, using(crate::proofs::LineLaws::line_laws), unfolding(crate::specs::Report::pair_text))]
fn put_pair(out: &mut [u8], at: usize, p: Pair) -> usize
    requires { at + length (pair_text p) ≤ length out.old }
    ensures { Wrote out.old at (pair_text p) out.new result }
{
    let first = put_decimal(out, at, p.first);
    let space = put_bytes(out, first, b" ");
    put_decimal(out, space, p.second)
}

// A word and a number.
#[tactic(auto, using(crate::proofs::LineLaws::line_laws))]
fn number_line(word: &[u8], n: usize, out: &mut [u8]) -> usize
    requires { length (word.now ++ (decimal_text n ++ line_end)) ≤ length out.old }
    ensures { Wrote out.old 0 (word.now ++ (decimal_text n ++ line_end)) out.new result }
{
    let digits = put_bytes(out, 0, word);
    let end = put_decimal(out, digits, n);
    put_bytes(out, end, b"\n")
}

// "refused" and the number.
// Kept: tried one `write!` for it, into the slice: no clause of std says what it puts there, or that a `write!` succeeds.
#[tactic(auto, unfolding(crate::specs::Report::refused_line))]
pub fn refused_line(x: Refusal, out: &mut [u8]) -> usize
    requires { length (refused_line x) ≤ length out.old }
    ensures { Wrote out.old 0 (refused_line x) out.new result }
{
    number_line(b"refused ", usize::from(u8::from(x)), out)
}

#[tactic(auto, using(crate::proofs::LineLaws::line_laws), unfolding(crate::specs::Report::verdict_line))]
fn no_word_line(p: Pair, out: &mut [u8]) -> usize
    requires { length (verdict_line (Ok (NoWord p))) ≤ length out.old }
    ensures { Wrote out.old 0 (verdict_line (Ok (NoWord p))) out.new result }
{
    let word = put_bytes(out, 0, b"not-convertible ");
    let end = put_pair(out, word, p);
    put_bytes(out, end, b" no-word\n")
}

#[tactic(auto, using(crate::proofs::LineLaws::line_laws), unfolding(crate::specs::Report::verdict_line))]
fn rival_line(p: Pair, q: Pair, out: &mut [u8]) -> usize
    requires { length (verdict_line (Ok (Rival p q))) ≤ length out.old }
    ensures { Wrote out.old 0 (verdict_line (Ok (Rival p q))) out.new result }
{
    let word = put_bytes(out, 0, b"not-convertible ");
    let named = put_pair(out, word, p);
    let rival = put_bytes(out, named, b" rival ");
    let last = put_pair(out, rival, q);
    put_bytes(out, last, b"\n")
}

// The line of a verdict, from the first byte on, and its length.
#[tactic(auto, unfolding(crate::specs::Report::verdict_line))]
pub fn first_line(v: Result<Verdict, Refusal>, out: &mut [u8]) -> usize
    requires { length (verdict_line v) ≤ length out.old }
    ensures { Wrote out.old 0 (verdict_line v) out.new result }
{
    match v {
        Err(x) => refused_line(x, out),
        Ok(Verdict::Convertible(k)) => number_line(b"convertible ", k, out),
        Ok(Verdict::NoWord(p)) => no_word_line(p, out),
        Ok(Verdict::Rival(p, q)) => rival_line(p, q, out),
    }
}
