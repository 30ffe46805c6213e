// A pair's term, built in a lent slice.
ghost use Rattle.std.specs.Prelude.{◌≡◌, ◌<◌, length};
ghost use Rattle.limits.specs.Limits.{most_parties};
ghost use Rattle.masks.specs.promises.Mask.{test_bit};
ghost use Rattle.masks.specs.promises.Table.{mask_in};
ghost use Rattle.rebac.specs.Verdict.{judge};
ghost use Rattle.mining.specs.promises.Pairs.{pair_at};
ghost use Rattle.mining.specs.promises.Building.{problem_in, OutcomeAs, TermRoom, TermBegun};
ghost use Rattle.mining.specs.Values.{pair_value, pair_in};

use crate::kept::Kept;
use crate::pairs::{ArchivePair, TwoPairs};
use crate::term::add_word;
use graph::Archive;
use limits::MOST_PARTIES;
use masks::Row;
use rule_bytes::Words;
use search::ShortWord;

#[derive(Clone, Copy, Debug, PartialEq, Eq)]
pub struct Pair {
    pub first: usize,
    pub second: usize,
}

impl Pair {
    // The pair of a number: byte 32a + b of scratch is for (a, b).
    pub fn at(number: usize) -> Pair
        ensures { result ≡ pair_value (pair_at number) }
    {
        Pair {
            first: number / MOST_PARTIES,
            second: number % MOST_PARTIES,
        }
    }

    // Whether its bit of the row is set.
    pub fn is_in(self, row: &Row) -> bool
        requires { (self.first < most_parties) × (self.second < most_parties) }
        ensures { result ≡ test_bit (mask_in row.now self.first) self.second }
    {
        masks::has(row.masks[self.first], self.second as u32)
    }
}

// What is in a pair's way to a term: it has no word, or it has this rival.
#[derive(Clone, Copy, Debug, PartialEq, Eq)]
pub enum Obstacle {
    NoWord,
    Rival(Pair),
}

// From the term of the pair's first word to its whole term, against each unpermitted pair in order; at a missing word to the next pair.
// A pair that cannot walk each word so far is passed before anything is searched.
fn extend_term(
    own: ArchivePair,
    first: ShortWord,
    out: &mut [u8],
    at: usize,
) -> Result<usize, Obstacle>
    requires { TermBegun own.archive.now (pair_in own.pair) first at out.old }
    ensures { OutcomeAs own.entry.archive.now (pair_in own.entry.pair) at out.old out.new
        (judge (problem_in own.entry.archive.now) (pair_in own.entry.pair)) result }
{
    let a = own.archive;
    let mut number: usize = 1;
    let mut end = at + 3 + first.word.len;
    let mut alive = a.graph.walk_pairs(first);
    let mut kept = Kept::new();
    let count = MOST_PARTIES * a.graph.parties;
    // Kept: nested loops with a label are 01's form.
    'pairs: for k in 0..count {
        let q = Pair::at(k);
        if !q.is_in(&alive) {
            continue 'pairs;
        }
        if q.is_in(&a.permits) {
            continue 'pairs;
        }
        let Ok(other) = a.pair(q.first, q.second) else {
            continue 'pairs;
        };
        for word in Words::of_term(out, at) {
            if !word_test::has_word(&other, word) {
                continue 'pairs;
            }
        }
        let pairs = TwoPairs { own, other: q };
        let Some(w) = kept.first_lacked(&pairs) else {
            return Err(Obstacle::Rival(q));
        };
        alive = alive.common(a.graph.walk_pairs(w));
        add_word(out, at, end, number, w.word);
        end = end + 1 + w.word.len;
        number += 1;
    }
    Ok(end)
}

// The pair's term from place `at` on, and where it ends: its first word, then a word against each pair that still meets the term.
pub fn build_term(a: &Archive, p: Pair, out: &mut [u8], at: usize) -> Result<usize, Obstacle>
    requires { TermRoom a.now (pair_in p) at (length out.old) }
    ensures { OutcomeAs a.now (pair_in p) at out.old out.new
        (judge (problem_in a.now) (pair_in p)) result }
{
    let own = ArchivePair {
        archive: a,
        pair: p,
    };
    let Some(first) = own.first_word() else {
        return Err(Obstacle::NoWord);
    };
    fields::put_u16(out, at, 0);
    add_word(out, at, at + 2, 0, first.word);
    extend_term(own, first, out, at)
}
