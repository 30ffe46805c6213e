// One pair in its turn: what the verdict and mining do with each.
ghost use Rattle.std.specs.Prelude.{◌≡◌, ◌&&◌, ◌||◌, List, ℕ, ◌*◌, ◌≤◌, ◌<◌, length};
ghost use Rattle.limits.specs.Limits.{most_parties};
ghost use Rattle.masks.specs.promises.Mask.{test_bit};
ghost use Rattle.masks.specs.promises.Table.{mask_in};
ghost use Rattle.rebac.specs.Words.{Word as Symbols};
ghost use Rattle.rebac.specs.Rules.{RuleList};
ghost use Rattle.rebac.specs.Verdict.{judge};
ghost use Rattle.graph.specs.Legal.{is_pair};
ghost use Rattle.rule_bytes.specs.promises.Reading.{TermAt, SomeTerm};
ghost use Rattle.rules.specs.promises.Meets.{meets_term};
ghost use Rattle.mining.specs.promises.Pairs.{pair_at};
ghost use Rattle.mining.specs.promises.Building.{problem_in, CoversTerm};
ghost use Rattle.mining.specs.promises.Taking.{PairMarks, due_by, DueQuery, TurnAs};

use crate::build::{Obstacle, Pair, build_term};
use graph::Archive;
use limits::MOST_PARTIES;
use masks::Row;
use rule_bytes::Words;
use search::Graph;

// A pair's term: where it ends, and the pairs that the list with it permits.
#[derive(Clone, Copy)]
pub struct Taken {
    pub end: usize,
    pub marks: Row,
}

// The pairs that can walk each word of the term at a place. The others do not meet it.
// Kept: list and place stand apart, as at `rules::meets_term`.
fn term_pairs(a: &Archive, list: &[u8], at: usize) -> Row
    requires { SomeTerm list.now at }
    ensures { (t : List (List ℕ)) (s : List ℕ) → TermAt list.now at t s → CoversTerm a.now t result }
{
    let mut row = Row::full();
    for word in Words::of_term(list, at) {
        row = row.common(a.graph.walk_pairs(word));
    }
    row
}

// The marks with those of the pairs that meet the term at a place.
// Kept: list and place stand apart, as at `rules::meets_term`.
fn mark_term(a: &Archive, marks: Row, list: &[u8], at: usize) -> Row
    requires { SomeTerm list.now at }
    ensures { (t : List (List ℕ)) (s : List ℕ) → TermAt list.now at t s → (u v : ℕ)
        → test_bit (mask_in result u) v
        ≡ (test_bit (mask_in marks u) v || (is_pair a.now.graph.parties u v && meets_term a.now.graph.parties a.now.graph.table u v t)) }
{
    let alive = term_pairs(a, list, at);
    let mut row = marks;
    let count = MOST_PARTIES * a.graph.parties;
    for k in 0..count {
        let q = Pair::at(k);
        if !q.is_in(&alive) {
            continue;
        }
        if q.is_in(&row) {
            continue;
        }
        let Ok(pair) = a.pair(q.first, q.second) else {
            continue;
        };
        if rules::meets_term(&pair, list, at).met {
            row = row.add(q.first, q.second as u32);
        }
    }
    row
}

// Whether the pair of number k is permitted, and no term so far permits it.
#[tactic(auto, unfolding(crate::specs::promises::Taking::due_by))]
pub fn is_due(g: &Graph, permits: &Row, marks: &Row, k: usize) -> bool
    requires { k < most_parties * g.now.parties }
    ensures { result ≡ due_by g.now.parties permits.now marks.now k }
{
    let q = Pair::at(k);
    graph::is_pair(g.parties, q.first, q.second) && q.is_in(permits) && !q.is_in(marks)
}

// The due pair of number k: its term from place `at` on, or what is in the way.
pub fn take_due(
    a: &Archive,
    marks: Row,
    k: usize,
    out: &mut [u8],
    at: usize,
) -> Result<Taken, Obstacle>
    requires { DueQuery a.now marks k at (length out.old) }
    ensures { (l : RuleList Symbols) → PairMarks a.now l marks
        → TurnAs a.now l k at out.old out.new (judge (problem_in a.now) (pair_at k)) result }
{
    let end = build_term(a, Pair::at(k), out, at)?;
    Ok(Taken {
        end,
        marks: mark_term(a, marks, out, at),
    })
}
