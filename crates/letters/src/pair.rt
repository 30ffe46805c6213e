// The masks of a graph by the numbers of their pairs.
ghost use Rattle.std.specs.Prelude.{◌≡◌, ◌<◌};
ghost use Rattle.limits.specs.Limits.{pair_numbers};
ghost use Rattle.letters.specs.promises.Writing.{pair_mask};

use limits::MOST_PARTIES;
use masks::Table;

// The mask of the pair with number k.
pub fn mask_of_pair(g: &Table, k: usize) -> u32
    requires { k < pair_numbers }
    ensures { result ≡ pair_mask g.now k }
{
    g.rows[k / MOST_PARTIES].masks[k % MOST_PARTIES]
}
