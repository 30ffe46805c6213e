// The enlarged graph, the steps of its parties, and the pairs that can walk a word.
ghost use Rattle.std.specs.Prelude.{◌≤◌};
ghost use Rattle.limits.specs.Limits.{most_parties};

use crate::symbol::Symbol;
use crate::word::{Form, ShortWord};
use masks::{Row, Table};

// The enlarged graph of so many parties.
// Kept: a number beside a table of 32 rows, which is 01's form: by value, and no heap.
#[derive(Clone, Copy)]
pub struct Graph {
    pub parties: usize,
    pub table: Table,
    ghost within: { parties ≤ most_parties },
}

// Kept: `u`, `target` and `at` are held to the graph or word beside them, as an index to a slice's length; a type would carry that along.
impl Graph {
    ghost use Rattle.std.specs.Prelude.{◌≡◌, ℕ, ◌<◌, true, slice_index_or};
    ghost use Rattle.masks.specs.promises.Mask.{test_bit};
    ghost use Rattle.masks.specs.promises.Table.{no_row, mask_in};
    ghost use Rattle.search.specs.Word.{symbols_in};
    ghost use Rattle.search.specs.promises.Search.{place_at};
    ghost use Rattle.search.specs.promises.Last.{Ends, last_place};
    ghost use Rattle.search.specs.promises.Walk.{FirstStep};
    ghost use Rattle.search.specs.promises.WalkPairs.{StepsBack, CoversPairs};

    // The first candidate of the mask to which party u has a step at place `at`. Each turn takes the mask's next candidate.
    pub(crate) fn first_step(&self, u: usize, form: &Form, at: usize, mask: u32) -> Option<usize>
        requires start { u < self.now.parties }
        requires place { at < form.now.word.word.len }
        ensures { FirstStep (place_at form.now.word.word form.now.fixed at) (slice_index_or self.now.table.rows u no_row) mask
            self.now.parties result }
    {
        let row = &self.table.rows[u];
        let mut left = mask;
        while left != 0 {
            let c = left.trailing_zeros() as usize;
            if self.parties <= c {
                return None;
            }
            if form.allows(at, row.masks[c]) {
                return Some(c);
            }
            left &= !(1u32 << c);
        }
        None
    }

    // The parties with a last step to the target.
    pub(crate) fn last_parties(&self, form: &Form, target: usize) -> u32
        requires some { 0 < form.now.word.word.len }
        requires end { target < self.now.parties }
        ensures { Ends self.now.parties self.now.table target (last_place form.now.word.word form.now.fixed) result }
    {
        let last = form.word.word.len - 1;
        let mut ends: u32 = 0;
        for v in 0..self.parties {
            if form.allows(last, self.table.rows[v].masks[target]) {
                ends = masks::with(ends, v as u32);
            }
        }
        ends
    }

    // The ends that party u reaches by the symbol and then as the row says.
    fn mask_before(&self, u: usize, row: &Row, s: Symbol) -> u32
        requires { u < self.now.parties }
        ensures { StepsBack (slice_index_or self.now.table.rows u no_row) s.number row.now result self.now.parties }
    {
        let from = &self.table.rows[u];
        let mut mask: u32 = 0;
        for x in 0..self.parties {
            if s.is_in(from.masks[x]) {
                mask |= row.masks[x];
            }
        }
        mask
    }

    // One step back along a symbol: the pairs that can walk it and then what the row says.
    fn step_back(&self, row: &Row, s: Symbol) -> Row
        ensures { (u : ℕ) → u < self.now.parties
            → StepsBack (slice_index_or self.now.table.rows u no_row) s.number row.now (mask_in result u) self.now.parties }
    {
        let mut back = Row::empty();
        for u in 0..self.parties {
            back.masks[u] = self.mask_before(u, row, s);
        }
        back
    }

    // Each party with itself: the pairs that walk no symbol.
    fn unmoved(&self) -> Row
        ensures { (u : ℕ) → u < self.now.parties → test_bit (mask_in result u) u ≡ true }
    {
        let mut row = Row::empty();
        for u in 0..self.parties {
            row = row.add(u, u as u32);
        }
        row
    }

    // The pairs that can walk the word, in which a party may occur again, by one step back for each symbol from its end. A pair that is
    // not among them lacks the word.
    pub fn walk_pairs(&self, w: ShortWord) -> Row
        ensures { CoversPairs self.now.parties self.now.table (symbols_in w.word) result }
    {
        let mut row = self.unmoved();
        for at in (0..w.word.len).rev() {
            row = self.step_back(&row, w.symbol(at));
        }
        row
    }
}
