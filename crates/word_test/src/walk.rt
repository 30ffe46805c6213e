// Walks past the visited parties, in which the others may repeat: where no walk leads to a party, no way back leads from it.
use crate::back::SearchBack;
use crate::step::steps_from;
use search::Symbol;

// Kept: places are held to the word in self, as an index to its slice's length; a type for them would carry the word along.
impl SearchBack {
    ghost use Rattle.std.specs.Prelude.{◌-◌, ◌<◌, ◌≤◌, IfSome};
    ghost use Rattle.word_test.specs.promises.Walk.{Onward, Covers, Look};

    // The parties not visited to which the symbol leads from one of the mask.
    fn parties_onward(&self, s: Symbol, mask: u32, visited: u32) -> u32
        ensures { Onward self.now.graph.parties self.now.graph.table s.number mask visited self.now.graph.parties result }
    {
        let mut parties: u32 = 0;
        for c in 0..self.graph.parties {
            if masks::has(mask, c as u32) {
                parties |= steps_from(&self.graph, c, s);
            }
        }
        (parties | visited) ^ visited
    }

    // The parties that walks from one of the mask, which stand before place `from`, reach before place `to` past the visited ones. No
    // party where fewer parties stand on such walks than a way has, which has another at each place.
    fn walked(&self, visited: u32, mask: u32, from: usize, to: usize) -> u32
        requires places { from ≤ to }
        requires place { to ≤ self.now.word.word.len }
        ensures { Covers self.now.graph.parties self.now.graph.table self.now.word.word mask from (to - from) visited result }
    {
        let mut parties = (mask | visited) ^ visited;
        let mut all = parties;
        for at in from..to {
            parties = self.parties_onward(self.word.symbol(at), parties, visited);
            all |= parties;
        }
        if all.count_ones() <= (to - from) as u32 {
            return 0;
        }
        parties
    }

    // The candidates before place `at` that a search back has to try: those with a walk from a start, and those from which walks lead back
    // along more symbols than `deep` in all. None where all of them have to be tried.
    pub(crate) fn look(&self, at: usize, visited: u32, deep: usize) -> Option<u32>
        requires some { 1 ≤ at }
        requires place { at < self.now.word.word.len }
        ensures { IfSome result (Look self.now.graph.parties self.now.graph.table self.now.word.word at visited self.now.starts deep) }
    {
        let len = self.word.word.len;
        let near = self.walked(visited, self.starts, 1, at);
        if len - 1 <= deep {
            return Some(near);
        }
        let from = len - deep - 1;
        if at < from {
            return None;
        }
        Some(near | self.walked(visited, u32::MAX, from, at))
    }
}
