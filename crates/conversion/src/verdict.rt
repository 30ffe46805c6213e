// The verdict: convertible with the length of the list, or the first pair in the way.
ghost use Rattle.std.specs.Prelude.{◌≡◌, ℕ, ◌+◌, ◌≤◌, length, take};
ghost use Rattle.graph.specs.FileMatter.{matter_of};
ghost use Rattle.conversion.specs.Calls.{bytes_of, verdict_call};
ghost use Rattle.conversion.specs.promises.Passes.{longest_term, verdict_by, JudgeRoom, JudgedAs};
ghost use Rattle.conversion.specs.declared.verdict.Verdict.TheVariants.{Convertible};

use graph::Archive;
use house_layout::Refusal;
use limits::MOST_PARTIES;
use masks::Row;
use mining::{Obstacle, Pair};

// Convertible with the list's length in bytes; or not, for the pair has no word or has the rival.
// `said_verdict` gives 01's number and values of each; equal ones mean equal replies (`verdict_said`).
// Kept: no Result, since each of the three is an answer of 01's verdict and none a failure.
#[derive(Clone, Copy, Debug, PartialEq, Eq)]
pub enum Verdict {
    Convertible(usize),
    NoWord(Pair),
    Rival(Pair, Pair),
}

// The list's length in bytes, and the pairs that it permits.
#[derive(Clone, Copy)]
pub struct Judged {
    pub size: usize,
    pub marks: Row,
}

// The first permitted pair without a term, and what is in its way.
#[derive(Clone, Copy, Debug, PartialEq, Eq)]
pub struct Hindered {
    pub pair: Pair,
    pub obstacle: Obstacle,
}

impl From<Hindered> for Verdict {
    ghost from_gives = { λ h v. v ≡ verdict_by h.pair h.obstacle };

    fn from(h: Hindered) -> Verdict {
        match h.obstacle {
            Obstacle::NoWord => Verdict::NoWord(h.pair),
            Obstacle::Rival(q) => Verdict::Rival(h.pair, q),
        }
    }
}

// The bytes of the longest term: 993 words of 32 bytes each, and their number.
pub const LONGEST_TERM: usize = 31778;

// The pairs in turn, their terms one after another from place 2 of the lent slice on, and then their number before them.
// A list of at most `limit` bytes stays there; a term that begins beyond is built at `limit`, over the one before.
#[tactic(auto, using(crate::proofs::JudgeLaws::judge_laws))]
pub fn judge_into(a: &Archive, list: &mut [u8], limit: usize) -> Result<Judged, Hindered>
    requires { JudgeRoom a.now limit (length list.old) }
    ensures { JudgedAs a.now limit list.old list.new result }
{
    let mut marks = Row::empty();
    let mut number: usize = 0;
    let mut size: usize = 2;
    let count = MOST_PARTIES * a.graph.parties;
    for k in 0..count {
        if !mining::is_due(&a.graph, &a.permits, &marks, k) {
            continue;
        }
        let at = size.min(limit);
        let pair = Pair::at(k);
        let t = mining::take_due(a, marks, k, list, at).map_err(|obstacle| Hindered {
            pair,
            obstacle,
        })?;
        number += 1;
        size += t.end - at;
        marks = t.marks;
    }
    fields::put_u16(list, 0, number);
    Ok(Judged { size, marks })
}

// The verdict on a file, and its list in the lent slice where it has at most `limit` bytes.
#[tactic(auto, using(crate::proofs::AnswerLaws::convert_laws), unfolding(crate::specs::Calls::verdict_call))]
pub fn convert(file: &[u8], list: &mut [u8], limit: usize) -> Result<Verdict, Refusal>
    requires { limit + longest_term ≤ length list.old }
    ensures { (result ≡ verdict_call file.now)
        × ((k : ℕ) → verdict_call file.now ≡ Ok (Convertible k) → k ≤ limit
        → take k list.new ≡ bytes_of (matter_of file.now)) }
{
    let a = graph::load(file)?;
    match judge_into(&a, list, limit) {
        Ok(j) => Ok(Verdict::Convertible(j.size)),
        Err(h) => Ok(Verdict::from(h)),
    }
}

// 01's verdict, for any bytes. No list is kept.
pub fn verdict_call(file: &[u8]) -> Result<Verdict, Refusal>
    ensures { result ≡ verdict_call file.now }
{
    let mut term = [0u8; LONGEST_TERM];
    convert(file, &mut term, 0)
}
