// The call that holds a rule list against a file's permit table.
ghost use Rattle.std.specs.Prelude.{◌≡◌};
ghost use Rattle.rebac.specs.Matter.{Matter};
ghost use Rattle.graph.specs.promises.Archive.{Shows};
ghost use Rattle.comparison.specs.Compare.{compare_in, compare_call};

use crate::difference::Comparison;
use graph::Archive;
use house_layout::Refusal;
use mining::Pair;
use rule_bytes::check_list;

// The first pair that only the file's table permits, or only the list.
#[derive(Clone, Copy, Debug, PartialEq, Eq)]
pub enum Difference {
    OnlyFile(Pair),
    OnlyList(Pair),
}

// The answer for an accepted file. The whole list is checked before any answer.
#[tactic(auto, using(crate::proofs::CompareLaws::no_list))]
fn compare_in(a: &Archive, list: &[u8]) -> Result<Option<Difference>, Refusal>
    ensures { (M : Matter) → Shows M a.now → result ≡ compare_in M list.now }
{
    if !check_list(list, a.words) {
        return Err(Refusal::RuleList);
    }
    let comparison = Comparison { archive: a, list };
    Ok(comparison.first_difference())
}

// The call of Ticket 3, for any bytes. `said_compare` gives the number and values of each reply; equal ones mean equal replies
// (`compare_said`).
#[tactic(auto, using(house_layout::proofs::Exits::left_with), unfolding(crate::specs::Compare::compare_call))]
pub fn compare_call(file: &[u8], list: &[u8]) -> Result<Option<Difference>, Refusal>
    ensures { result ≡ compare_call file.now list.now }
{
    let a = graph::load(file)?;
    compare_in(&a, list)
}
