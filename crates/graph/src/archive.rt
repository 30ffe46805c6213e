// What the calls work on.
ghost use Rattle.graph.specs.promises.Shown.{Shown};

use crate::pairs::is_pair;
use crate::words::WordRule;
use house_layout::Refusal;
use masks::Row;
use search::{Graph, PairIn};

// The enlarged graph, what words may be, and the permit table, of a matter.
#[derive(Clone, Copy)]
pub struct Archive {
    pub graph: Graph,
    pub words: WordRule,
    pub permits: Row,
    ghost shown: { Shown graph words permits },
}

impl Archive {
    ghost use Rattle.graph.specs.promises.Archive.{PairGiven};

    // The pair of two numbers, or refusal 10 where they are none.
    pub fn pair(&self, first: usize, second: usize) -> Result<PairIn, Refusal>
        ensures { PairGiven self.now first second result }
    {
        if !is_pair(self.graph.parties, first, second) {
            return Err(Refusal::PartyPair);
        }
        let graph = self.graph;
        Ok(PairIn {
            graph,
            first,
            second,
        })
    }
}
