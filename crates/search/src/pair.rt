// Pairs of a graph's parties, and the search for a path.
ghost use Rattle.rebac.specs.Matter.{pair, IsPair};

use crate::graph::Graph;
use crate::path::{NoPath, Path};
use crate::search::{Position, Search};
use crate::word::Form;
use limits::MOST_PARTIES;

// A pair of a graph's parties.
#[derive(Clone, Copy)]
pub struct PairIn {
    pub graph: Graph,
    pub first: usize,
    pub second: usize,
    ghost is_pair: { IsPair graph.parties (pair first second) },
}

impl PairIn {
    ghost use Rattle.std.specs.Prelude.{◌≡◌};
    ghost use Rattle.masks.specs.promises.Mask.{with_bit};
    ghost use Rattle.search.specs.promises.Search.{FoundAs};
    ghost use Rattle.search.specs.promises.PairSearch.{search_form};

    // The path of one step.
    fn one_step(&self, form: &Form, visited: u32) -> Result<Path, NoPath>
        requires one { form.now.word.word.len ≡ 1 }
        requires start { visited ≡ with_bit 0 self.now.first }
        ensures { FoundAs 0 visited (search_form self.now form.now) result }
    {
        if !form.allows(0, self.graph.table.rows[self.first].masks[self.second]) {
            return Err(NoPath { tried: 0 });
        }
        let mut parties = [0u8; MOST_PARTIES];
        parties[1] = self.second as u8;
        let visited = masks::with(visited, self.second as u32);
        Ok(Path { visited, parties })
    }

    // The least path of the pair along the form's places. A path visits no party twice, so a word of n symbols or more has none.
    // Unless the pair's first party has no step at place 0, the parties with a last step are gathered once for the whole search.
    pub fn search(&self, form: Form) -> Result<Path, NoPath>
        ensures { FoundAs 0 (with_bit 0 self.now.first) (search_form self.now form) result }
    {
        let n = self.graph.parties;
        let len = form.word.word.len;
        if len == 0 {
            return Err(NoPath { tried: 0 });
        }
        if n <= len {
            return Err(NoPath { tried: 0 });
        }
        let visited = masks::with(0, self.first as u32);
        if len == 1 {
            return self.one_step(&form, visited);
        }
        if self
            .graph
            .first_step(self.first, &form, 0, u32::MAX)
            .is_none()
        {
            return Err(NoPath { tried: 1 });
        }
        let s = Search {
            graph: self.graph,
            form,
            target: self.second,
            ends: self.graph.last_parties(&form, self.second),
        };
        let start = Position {
            at: 0,
            u: self.first,
            visited,
        };
        if len == 2 {
            return s.two_steps(start);
        }
        s.candidate_search(start)
    }
}

// Two pairs of a graph's parties: the one whose words are sought, and the one held against it.
#[derive(Clone, Copy)]
pub struct TwoPairsIn {
    pub graph: Graph,
    pub first: usize,
    pub second: usize,
    pub u: usize,
    pub v: usize,
    ghost is_pair: { IsPair graph.parties (pair first second) },
    ghost other: { IsPair graph.parties (pair u v) },
}

impl TwoPairsIn {
    ghost use Rattle.std.specs.Prelude.{◌≡◌};

    // The pair whose words are sought.
    pub fn own(&self) -> PairIn
        ensures graph { result.graph ≡ self.now.graph }
        ensures first { result.first ≡ self.now.first }
        ensures second { result.second ≡ self.now.second }
    {
        PairIn {
            graph: self.graph,
            first: self.first,
            second: self.second,
        }
    }

    // The pair held against it.
    pub fn other(&self) -> PairIn
        ensures graph { result.graph ≡ self.now.graph }
        ensures first { result.first ≡ self.now.u }
        ensures second { result.second ≡ self.now.v }
    {
        PairIn {
            graph: self.graph,
            first: self.u,
            second: self.v,
        }
    }
}
