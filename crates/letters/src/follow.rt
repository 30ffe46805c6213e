// The letters that may follow each other: on a path the one leads from a party to a second, the other on from there to a third.
ghost use Rattle.std.specs.Prelude.{◌/◌, ◌%◌};
ghost use Rattle.limits.specs.Limits.{most_parties};
ghost use Rattle.letters.specs.promises.Following.{LeadsPast, AfterAdded, Follows};

use crate::MOST_LETTERS;
use crate::pair::mask_of_pair;
use limits::{MOST_PARTIES, PAIR_NUMBERS};
use masks::{Row, Table, has};

// The letters that lead on from the pair with number k: from its second party to one other than its first.
fn letters_past(g: &Table, k: usize) -> u32
    ensures { LeadsPast g.now (k / most_parties) (k % most_parties) most_parties result }
{
    let x = k / MOST_PARTIES;
    let y = k % MOST_PARTIES;
    let mut letters: u32 = 0;
    for z in 0..MOST_PARTIES {
        if z != x {
            letters |= g.rows[y].masks[z];
        }
    }
    letters
}

// The row in which the letters `after` follow each letter of the mask too.
fn with_after(row: Row, mask: u32, after: u32) -> Row
    ensures { AfterAdded row mask after most_parties result }
{
    let mut more = row;
    for b in 0..MOST_LETTERS {
        if has(mask, b as u32) {
            more.masks[b] |= after;
        }
    }
    more
}

// For each letter a mask with those that may follow it.
pub fn followers(g: &Table) -> Row
    ensures { Follows g.now result }
{
    let mut row = Row::empty();
    for k in 0..PAIR_NUMBERS {
        let mask = mask_of_pair(g, k);
        if mask != 0 {
            row = with_after(row, mask, letters_past(g, k));
        }
    }
    row
}
