// Two pairs in a graph in letters.
ghost use Rattle.letters.specs.promises.Following.{Follows};

use letters::{Letters, Span};
use masks::Row;
use search::{Graph, TwoPairsIn};

// Two pairs in a graph in letters, what stays the same along a seeking. The letters below the span's base have
// their classes among the others, if there are any. `follow` has for each letter those that may follow it.
#[derive(Clone, Copy)]
pub struct PairsInLetters {
    pub pairs: TwoPairsIn,
    pub span: Span,
    pub follow: Row,
    ghost follows: { Follows pairs.graph.table follow },
}

impl PairsInLetters {
    ghost use Rattle.classes.specs.promises.Prefixes.{Over};

    // The pairs in the letters' graph.
    pub fn new(q: &TwoPairsIn, l: &Letters) -> PairsInLetters
        ensures { Over q.now l.now result }
    {
        let graph = Graph {
            parties: q.graph.parties,
            table: l.graph,
        };
        let pairs = TwoPairsIn {
            graph,
            first: q.first,
            second: q.second,
            u: q.u,
            v: q.v,
        };
        PairsInLetters {
            pairs,
            span: l.span,
            follow: l.follow,
        }
    }
}
