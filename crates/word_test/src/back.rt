// Party search and candidate search call each other, from the word's end to its start.
ghost use Rattle.std.specs.Prelude.{◌≡◌, ◌≤◌};
ghost use Rattle.word_test.specs.promises.Last.{LastTwo};

use crate::step::steps_to;
use masks::Row;
use search::{Graph, ShortWord};

// What a search back found: the number of ways, cut at a cap; where there is none, along how many symbols it got.
// `tried` says how many parties the search entered, short of the last three places.
// Kept: numbers and no enum: a search adds up counts and keeps the depth in either case; with ways found, the depth is a bound alone.
#[derive(Clone, Copy)]
pub struct Back {
    pub count: u32,
    pub depth: usize,
    pub tried: u32,
}

impl Back {
    // There is no way.
    pub fn nothing(depth: usize, tried: u32) -> Self
        ensures count { result.count ≡ 0 }
        ensures depth { result.depth ≡ depth }
    {
        Back {
            count: 0,
            depth,
            tried,
        }
    }
}

// The last two steps, from a party to which the second symbol leads from those of the mask. `len` is the word's length.
// Kept: cap and deep stand apart, here and below: the one falls by the ways found and the other grows, so each call would make both anew.
pub fn last_two(mask: u32, starts: u32, cap: u32, len: usize, deep: usize) -> Back
    requires { 2 ≤ len }
    ensures { LastTwo mask starts cap len deep result }
{
    let far = if mask == 0 { len - 2 } else { len - 1 };
    Back {
        count: cap.min((mask & starts).count_ones()),
        depth: deep.max(far),
        tried: 0,
    }
}

// Where a search back stands: at party u, of which contracts speak, with the places from `at` down before it; the parties that may come
// next as a mask, the visited ones, how many ways are still asked for, and the depth that is known.
#[derive(Clone, Copy)]
pub struct Position {
    pub cap: u32,
    pub at: usize,
    pub u: usize,
    pub mask: u32,
    pub visited: u32,
    pub deep: usize,
}

// What stays the same along a search back: the graph, the word, the parties to which its first symbol leads, and for each party those of
// account from which the second symbol leads to it.
#[derive(Clone, Copy)]
pub struct SearchBack {
    pub graph: Graph,
    pub word: ShortWord,
    pub starts: u32,
    pub seconds: Row,
}

// Kept: `at` is held to the word in self, as an index to its slice's length; a type for it would carry the word along.
impl SearchBack {
    ghost use Rattle.std.specs.Prelude.{◌+◌, ◌-◌, ◌<◌, max};
    ghost use Rattle.word_test.specs.promises.Backward.{CandidateQuery, FoundBack};
    ghost use Rattle.word_test.specs.promises.Last.{LastThree};

    // The symbols passed before place `at`, or the depth that is known if it is greater.
    fn passed(&self, at: usize, deep: usize) -> usize
        requires { at < self.now.word.word.len }
        ensures { result ≡ max deep (self.now.word.word.len - (at + 1)) }
    {
        deep.max(self.word.word.len - (at + 1))
    }

    // The last three steps: the candidates of the mask, and from each the last two.
    pub fn last_three(&self, mask: u32, visited: u32, cap: u32, deep: usize) -> Back
        requires some { 1 ≤ cap }
        requires three { 3 ≤ self.now.word.word.len }
        ensures { LastThree mask self.now.seconds visited self.now.starts cap self.now.graph.parties self.now.word.word.len deep result }
    {
        let len = self.word.word.len;
        let mut count: u32 = 0;
        let mut depth = self.passed(2, deep);
        for v in 0..self.graph.parties {
            let c = v as u32;
            if masks::has(mask, c) {
                let more = masks::with(visited, c);
                let before = (self.seconds.masks[v] | more) ^ more;
                let f = last_two(before, self.starts, cap - count, len, depth);
                count += f.count;
                if cap <= count {
                    return Back {
                        count,
                        depth,
                        tried: 0,
                    };
                }
                depth = f.depth;
            }
        }
        Back {
            count,
            depth,
            tried: 0,
        }
    }

    // Kept: the graph goes by value from call to call, which is 01's form; what stays the same goes with it.
    // From a position on.
    #[cycle(candidate_back_party_back)]
    fn party_back(self, p: Position) -> Back
        requires { CandidateQuery self p }
        ensures { FoundBack self p.cap p.at p.u p.visited p.deep result }
    {
        self.candidate_back(p)
    }

    // The candidates of the position in ascending order, and from each to the party before: by the last three steps, or where that has a
    // candidate by a search. Once those that failed have cost more parties than places are left, beside which a look at walks is cheap,
    // a candidate is skipped from which no way leads to a start and none leads further than one did.
    #[cycle(candidate_back_party_back)]
    pub fn candidate_back(self, p: Position) -> Back
        requires { CandidateQuery self p }
        ensures { FoundBack self p.cap p.at p.u p.visited p.deep result }
    {
        let s = self.word.symbol(p.at - 1);
        // the candidates with a walk onward, once walks were looked at
        let mut onward: Option<u32> = None;
        let mut tried: u32 = 1;
        let mut count: u32 = 0;
        let mut depth = self.passed(p.at, p.deep);
        for v in 0..self.graph.parties {
            let c = v as u32;
            if !masks::has(p.mask, c) || onward.is_some_and(|mask| !masks::has(mask, c)) {
                continue;
            }
            let more = masks::with(p.visited, c);
            let next = steps_to(&self.graph, s, v, !more);
            let f = if p.at == 3 {
                self.last_three(next, more, p.cap - count, depth)
            } else if next == 0 {
                Back::nothing(self.passed(p.at - 1, depth), 1)
            } else {
                self.party_back(Position {
                    cap: p.cap - count,
                    at: p.at - 1,
                    u: v,
                    mask: next,
                    visited: more,
                    deep: depth,
                })
            };
            count += f.count;
            if p.cap <= count {
                return Back {
                    count,
                    depth,
                    tried,
                };
            }
            depth = f.depth;
            tried = tried.wrapping_add(f.tried);
            if onward.is_none() && p.at < tried as usize {
                onward = self.look(p.at, p.visited, depth);
            }
        }
        Back {
            count,
            depth,
            tried,
        }
    }
}
