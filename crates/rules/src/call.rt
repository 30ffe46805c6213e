// The permit call: whether a rule list permits a pair.
ghost use Rattle.std.specs.Prelude.{◌≡◌, List, ℕ, drop};
ghost use Rattle.rebac.specs.Matter.{Matter};
ghost use Rattle.graph.specs.promises.Archive.{Shows};
ghost use Rattle.rule_bytes.specs.promises.Reading.{TermAt, SomeTerm, IsList, SomeList};
ghost use Rattle.rules.specs.Permit.{permit_in, permit_call};
ghost use Rattle.rules.specs.promises.Meets.{term_met, list_met};

use fields::u16_at;
use graph::Archive;
use house_layout::Refusal;
use rule_bytes::{Words, check_list};
use search::PairIn;
use word_test::has_word;

// Whether the pair meets a term, and the place after the term.
// Kept: both values mean something in every case, so no Option or Result says more; apart from `rule_bytes::WordRead` as said there.
#[derive(Clone, Copy)]
pub struct TermMet {
    pub met: bool,
    pub next: usize,
}

// The term at a place of a checked list; its words are tested only while it can still be met.
// Kept: list and place stand apart, as at `meets_list`; the check of one term, `Checked::term`, is rule_bytes' own and needs a rule.
#[tactic(auto, unfolding(crate::specs::promises::Meets::meets_term))]
pub fn meets_term(q: &PairIn, list: &[u8], at: usize) -> TermMet
    requires { SomeTerm list.now at }
    ensures { (t : List (List ℕ)) (s : List ℕ) → TermAt list.now at t s
        → (result.met ≡ term_met q.now t) × (drop result.next list.now ≡ s) }
{
    let mut met = true;
    let mut words = Words::of_term(list, at);
    // Kept: no `for`, since the place is read after it; over `&mut words` one was tried, and the place after it was not proved.
    while let Some(word) = words.next() {
        if met {
            met = has_word(q, word);
        }
    }
    TermMet {
        met,
        next: words.place,
    }
}

// Whether a checked list permits the pair.
// Kept: a type's fact is a proposition; that a rule's check passed is one, but asks more of callers than `SomeList`, so it may not stand.
#[tactic(auto, using(crate::proofs::MeetLaws::list_laws), unfolding(crate::specs::promises::Meets::meets_list))]
pub fn meets_list(q: &PairIn, list: &[u8]) -> bool
    requires { SomeList list.now }
    ensures { (l : List (List (List ℕ))) → IsList list.now l → result ≡ list_met q.now l }
{
    let number = u16_at(list, 0);
    let mut place = 2;
    // Kept: the place goes on by hand, since only the end of a term that was read says where the next one begins.
    for _ in 0..number {
        let r = meets_term(q, list, place);
        if r.met {
            return true;
        }
        place = r.next;
    }
    false
}

// The answer for an accepted file. The whole list is checked before any answer.
// Kept: first and second are any numbers here; they become a pair of the graph in the first line.
#[tactic(auto, using(crate::proofs::PermitLaws::refusal_laws))]
fn permit_in(a: &Archive, list: &[u8], first: usize, second: usize) -> Result<bool, Refusal>
    ensures { (M : Matter) → Shows M a.now → result ≡ permit_in M list.now first second }
{
    let pair = a.pair(first, second)?;
    if !check_list(list, a.words) {
        return Err(Refusal::RuleList);
    }
    Ok(meets_list(&pair, list))
}

// 01's permit call, for any bytes and any two numbers. `said_permit` gives 01's number and values of each reply; equal ones mean equal
// replies (`permit_said`).
#[tactic(auto, using(house_layout::proofs::Exits::left_with), unfolding(crate::specs::Permit::permit_call))]
pub fn permit_call(file: &[u8], list: &[u8], first: usize, second: usize) -> Result<bool, Refusal>
    ensures { result ≡ permit_call file.now list.now first second }
{
    let a = graph::load(file)?;
    permit_in(&a, list, first, second)
}
