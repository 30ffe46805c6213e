// How many records each party has, and so the numbers of the first ones.
ghost use Rattle.std.specs.Prelude.{◌≡◌, ◌<◌, length};
ghost use Rattle.canonical.specs.Canonical.{entries_of};
ghost use Rattle.canonical.specs.promises.Masks.{matter_by, FirstsOf};

use crate::kinds::Kinds;
use crate::matter::MatterIn;
use limits::MOST_PARTIES;

// The number of each party's first record, and after the last party's the number past the last record.
#[derive(Clone, Copy)]
pub struct Firsts {
    pub numbers: [usize; MOST_PARTIES + 1],
}

// How many records party u has.
fn count_party(m: &MatterIn, u: usize) -> usize
    requires { u < m.now.header.parties }
    ensures { result ≡ length (entries_of (matter_by m.now) u) }
{
    let row = &m.masks.rows[u];
    let kinds = Kinds {
        labels: m.header.labels,
    };
    (0..m.header.parties)
        .map(|v| kinds.count_kinds(row.masks[v]))
        .sum()
}

// The numbers of the first records.
pub fn first_numbers(m: &MatterIn) -> Firsts
    ensures { FirstsOf (matter_by m.now) result }
{
    let mut numbers = [0usize; MOST_PARTIES + 1];
    let mut number = 1;
    numbers[0] = number;
    for u in 0..m.header.parties {
        number += count_party(m, u);
        numbers[u + 1] = number;
    }
    Firsts { numbers }
}
