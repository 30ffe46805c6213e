// The word test of a pair.
ghost use Rattle.std.specs.Prelude.{◌≡◌, ◌≤◌, max};
ghost use Rattle.rebac.specs.Paths.{has, path_count};
ghost use Rattle.rebac.specs.WordTest.{way_length, test_length};
ghost use Rattle.search.specs.Word.{symbols_in};
ghost use Rattle.search.specs.promises.PairSearch.{graph_of, pair_of};

use crate::back::{Back, Position, SearchBack, last_two};
use crate::step::{join, steps_from, steps_to};
use masks::Row;
use search::{PairIn, ShortWord};

// The number of the pair's paths with the word, cut at the cap; where there is none, the length of the longest way to the second party, or
// `deep` if none is longer. A caller that needs no length gives the word's. Both parties of the pair are visited from the start.
pub fn search_back(q: &PairIn, w: ShortWord, cap: u32, deep: usize) -> Back
    requires { 1 ≤ cap }
    ensures count { result.count ≡ path_count (graph_of q.now.graph) cap (pair_of q.now) (symbols_in w.word) }
    ensures depth { result.count ≡ 0 → result.depth ≡ max deep (way_length (graph_of q.now.graph) (pair_of q.now) (symbols_in w.word)) }
{
    let len = w.word.len;
    if len == 0 {
        return Back::nothing(deep, 0);
    }
    let starts = steps_from(&q.graph, q.first, w.symbol(0));
    if len == 1 {
        return Back {
            count: u32::from(masks::has(starts, q.second as u32)),
            depth: deep,
            tried: 0,
        };
    }
    // where no length is sought, the parties before the second symbol are of account only if they are starts
    let wanted = if deep < len - 1 { u32::MAX } else { starts };
    if wanted == 0 {
        return Back::nothing(deep, 0);
    }
    let visited = masks::with(masks::with(0, q.first as u32), q.second as u32);
    let last = w.symbol(len - 1);
    if len == 2 {
        let ends = steps_to(&q.graph, last, q.second, wanted & !visited);
        return last_two(ends, starts, cap, len, deep);
    }
    let ends = steps_to(&q.graph, last, q.second, !visited);
    if ends == 0 {
        return Back::nothing(deep, 0);
    }
    let mut seconds = Row::empty();
    for d in 0..q.graph.parties {
        if masks::has(wanted, d as u32) {
            seconds = join(seconds, &q.graph, w.symbol(1), d);
        }
    }
    let s = SearchBack {
        graph: q.graph,
        word: w,
        starts,
        seconds,
    };
    if len == 3 {
        return s.last_three(ends, visited, cap, deep);
    }
    s.candidate_back(Position {
        cap,
        at: len - 1,
        u: q.second,
        mask: ends,
        visited,
        deep,
    })
}

// What the word test returns: whether the pair has the word; and the word's length, or else that of the word's longest end that a path to
// the second party has which does not touch the first.
// Kept: 02 promises both in every case, yes or no and a length, so no Option or Result says more.
#[derive(Clone, Copy)]
pub struct Tested {
    pub yes: bool,
    pub length: usize,
}

pub fn word_test(q: &PairIn, w: ShortWord) -> Tested
    ensures yes { result.yes ≡ has (graph_of q.now.graph) (pair_of q.now) (symbols_in w.word) }
    ensures length { result.length ≡ test_length (graph_of q.now.graph) (pair_of q.now) (symbols_in w.word) }
{
    let f = search_back(q, w, 1, 0);
    if f.count == 0 {
        return Tested {
            yes: false,
            length: f.depth,
        };
    }
    Tested {
        yes: true,
        length: w.word.len,
    }
}

// Whether the pair has the word, for callers that need no length. A path visits no party twice, so a word of n symbols or more has none.
pub fn has_word(q: &PairIn, w: ShortWord) -> bool
    ensures { result ≡ has (graph_of q.now.graph) (pair_of q.now) (symbols_in w.word) }
{
    if q.graph.parties <= w.word.len {
        return false;
    }
    let f = search_back(q, w, 1, w.word.len);
    0 < f.count
}
