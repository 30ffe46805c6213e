// A map that takes one pair to another, found and checked.
ghost use Rattle.std.specs.Prelude.{◌≡◌, true};
ghost use Rattle.rebac.specs.Matter.{pair};
ghost use Rattle.maps.specs.promises.Maps.{Covered};

use crate::find::find_map;
use search::TwoPairsIn;

// Whether a map was found that shows that the other pair has every word of the own one, with at least as many paths.
pub fn carried(q: &TwoPairsIn) -> bool
    ensures { result ≡ true
        → Covered q.now.graph.parties q.now.graph.table (pair q.now.first q.now.second) (pair q.now.u q.now.v) }
{
    find_map(q).is_some_and(|m| m.takes(q))
}
