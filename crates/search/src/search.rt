// Party search and candidate search call each other. One or two places left are last steps, in a loop over one row, with no call that
// takes the graph on. Walks past the visited parties, in which the others may repeat, show where the rest of a word has no path.
ghost use Rattle.std.specs.Prelude.{◌<◌};
ghost use Rattle.search.specs.promises.Last.{last_place, Ends};

use crate::graph::Graph;
use crate::path::{NoPath, Path};
use crate::word::Form;
use limits::MOST_PARTIES;

// What stays the same along a search: the graph, the form along which it goes, the party at which it ends, and the parties that have a
// last step to that one.
#[derive(Clone, Copy)]
pub struct Search {
    pub graph: Graph,
    pub form: Form,
    pub target: usize,
    pub ends: u32,
    ghost end: { target < graph.parties },
    ghost last: { Ends graph.parties graph.table target (last_place form.word.word form.fixed) ends },
}

// Where a search stands: at party u, with the places from `at` on before it, and the visited parties.
#[derive(Clone, Copy)]
pub struct Position {
    pub at: usize,
    pub u: usize,
    pub visited: u32,
}

// Kept: a position's `u` and `at` are held to the graph and word in self, as an index to a slice's length; a type would carry those along.
impl Search {
    ghost use Rattle.std.specs.Prelude.{◌≡◌, ◌+◌, ◌≤◌, false};
    ghost use Rattle.masks.specs.promises.Mask.{test_bit};
    ghost use Rattle.search.specs.promises.Search.{FoundAs};
    ghost use Rattle.search.specs.promises.Onward.{search_on, SearchQuery, CoversFrom};

    // The last two steps, from party u: by the first candidate with a last step that is neither visited nor the target.
    pub fn two_steps(&self, p: Position) -> Result<Path, NoPath>
        requires two { p.at + 2 ≡ self.now.form.word.word.len }
        requires start { p.u < self.now.graph.parties }
        requires unvisited { test_bit p.visited self.now.target ≡ false }
        ensures { FoundAs p.at p.visited (search_on self.now p.at p.u p.visited) result }
    {
        let barred = masks::with(p.visited, self.target as u32);
        let open = (self.ends | barred) ^ barred;
        let Some(v) = self.graph.first_step(p.u, &self.form, p.at, open) else {
            return Err(NoPath { tried: 0 });
        };
        let mut parties = [0u8; MOST_PARTIES];
        parties[p.at + 2] = self.target as u8;
        parties[p.at + 1] = v as u8;
        let visited = masks::with(masks::with(p.visited, v as u32), self.target as u32);
        Ok(Path { visited, parties })
    }

    // The parties with a step at place `at` to a party of the mask. The visited ones and the target, which ends a path, are left out.
    fn parties_before(&self, at: usize, visited: u32, mask: u32) -> u32
        requires place { at < self.now.form.word.word.len }
        requires covers { CoversFrom self.now (at + 1) visited mask }
        ensures { CoversFrom self.now at visited result }
    {
        let mut parties: u32 = 0;
        for v in 0..self.graph.parties {
            let c = v as u32;
            if v == self.target || masks::has(visited, c) {
                continue;
            }
            if self.graph.first_step(v, &self.form, at, mask).is_some() {
                parties = masks::with(parties, c);
            }
        }
        parties
    }

    // The parties from which the places from `from` on can be walked to the target past the visited ones: backwards from the word's
    // end. No party where fewer parties than places stand on such walks, since a path has another party at each.
    fn walkable(&self, from: usize, visited: u32) -> u32
        requires { from ≤ self.now.form.word.word.len }
        ensures { CoversFrom self.now from visited result }
    {
        let len = self.form.word.word.len;
        let mut mask = masks::with(0, self.target as u32);
        let mut all: u32 = 0;
        for at in (from..len).rev() {
            mask = self.parties_before(at, visited, mask);
            all |= mask;
        }
        if all.count_ones() < (len - from) as u32 {
            return 0;
        }
        mask
    }

    // From a position on.
    // Kept: the graph goes by value from call to call, which is 01's form; what stays the same along the search goes with it.
    #[cycle(candidate_search_party_search)]
    fn party_search(self, p: Position) -> Result<Path, NoPath>
        requires { SearchQuery self p.at p.u p.visited }
        ensures { FoundAs p.at p.visited (search_on self p.at p.u p.visited) result }
    {
        self.candidate_search(p)
    }

    // The candidates after the position's party in ascending order, and from each to the party beyond. The target ends a path, so it is no
    // candidate here. Once those that failed have cost more parties than places are left, beside which a look at walks is cheap, a
    // candidate with no walk onward is skipped.
    #[cycle(candidate_search_party_search)]
    pub fn candidate_search(self, p: Position) -> Result<Path, NoPath>
        requires { SearchQuery self p.at p.u p.visited }
        ensures { FoundAs p.at p.visited (search_on self p.at p.u p.visited) result }
    {
        let len = self.form.word.word.len;
        let parties = self.graph.parties;
        let row = self.graph.table.rows[p.u];
        // the parties with a walk onward, once walks were looked at
        let mut onward: Option<u32> = None;
        let mut tried: u32 = 1;
        for v in 0..parties {
            let c = v as u32;
            if v == self.target
                || masks::has(p.visited, c)
                || onward.is_some_and(|mask| !masks::has(mask, c))
                || !self.form.allows(p.at, row.masks[v])
            {
                continue;
            }
            let next = Position {
                at: p.at + 1,
                u: v,
                visited: masks::with(p.visited, c),
            };
            let beyond = if p.at + 3 < len {
                self.party_search(next)
            } else {
                self.two_steps(next)
            };
            match beyond {
                Ok(mut path) => {
                    path.parties[p.at + 1] = v as u8;
                    return Ok(path);
                }
                Err(failed) => tried = tried.wrapping_add(failed.tried),
            }
            if p.at + 3 < len && onward.is_none() && len - p.at < tried as usize {
                onward = Some(self.walkable(p.at + 1, p.visited));
            }
        }
        Err(NoPath { tried })
    }
}
