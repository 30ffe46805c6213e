// A greedy search for a map of parties. It promises nothing of the images: the check is what counts.
ghost use Rattle.std.specs.Prelude.{◌≡◌, ℕ, ◌≤◌, ◌<◌, None, Some, get_or, IfSome};
ghost use Rattle.limits.specs.Limits.{most_parties};

use crate::carry::Map;
use limits::MOST_PARTIES;
use search::{Graph, TwoPairsIn};
use std::cmp::Reverse;

// The symbols of kinds 0 and 2, which say that a relation holds.
const RELATIONS: u32 = 0x5555_5555;

// A map of the graph's parties under way: the image of each party that has one, and the set of these images.
#[derive(Clone, Copy)]
struct Partial<'a> {
    graph: &'a Graph,
    images: [Option<u8>; MOST_PARTIES],
    used: u32,
    ghost within: { (u v : ℕ) → get_or images u None ≡ Some v → v < most_parties },
}

impl<'a> Partial<'a> {
    fn empty(graph: &'a Graph) -> Partial<'a>
        ensures { result.graph.now ≡ graph.now }
    {
        Partial {
            graph,
            images: [None; MOST_PARTIES],
            used: 0,
        }
    }

    // Kept: u indexes 32 images, v is a place of a mask; a type for the two bounds would be opened in both lines and serve this alone.
    // The map with one more image, v for u.
    fn with_image(mut self, u: usize, v: usize) -> Partial<'a>
        requires { (u < most_parties) × (v < most_parties) }
        ensures { result.graph.now ≡ self.entry.graph.now }
    {
        self.images[u] = Some(v as u8);
        self.used = masks::with(self.used, v as u32);
        self
    }

    // Kept: parties are held to the graph of the map, as an index to its slice's length; a type for them would carry the graph along.
    // Whether v may be the image of u: it is no party's image yet, and the symbols between u and each mapped party, both ways, stand
    // between the images.
    fn agrees(&self, u: usize, v: usize) -> bool
        requires party { u < self.now.graph.now.parties }
        requires image { v < self.now.graph.now.parties }
    {
        let rows = &self.graph.table.rows;
        !masks::has(self.used, v as u32)
            && (0..self.graph.parties).all(|x| {
                self.images[x].is_none_or(|y| {
                    let y = y as usize;
                    let s = rows[u].masks[x];
                    let t = rows[x].masks[u];
                    s & rows[v].masks[y] == s && t & rows[y].masks[v] == t
                })
            })
    }

    // How many of the mapped parties have a relation with u.
    fn relations(&self, u: usize) -> usize
        requires { u < self.now.graph.now.parties }
    {
        let rows = &self.graph.table.rows;
        let images = &self.images;
        (0..self.graph.parties)
            .filter(|&x| images[x].is_some()
                && (rows[u].masks[x] | rows[x].masks[u]) & RELATIONS != 0)
            .count()
    }

    // The party to be mapped next, where one is left: of those with most relations to the mapped ones the lowest.
    fn next_party(&self) -> Option<usize>
        ensures { IfSome result (λ u. u < self.now.graph.now.parties) }
    {
        let images = &self.images;
        (0..self.graph.parties)
            .filter(|&u| images[u].is_none())
            .min_by_key(|&u| Reverse(self.relations(u)))
    }

    // An image for u: itself, or else the lowest party that may be one.
    fn find_image(&self, u: usize) -> Option<usize>
        requires { u < self.now.graph.now.parties }
        ensures { IfSome result (λ v. v < self.now.graph.now.parties) }
    {
        if self.agrees(u, u) {
            return Some(u);
        }
        (0..self.graph.parties).find(|&v| self.agrees(u, v))
    }
}

// A one-to-one map that takes the first pair to the second, where images are found one after another.
pub fn find_map(q: &TwoPairsIn) -> Option<Map>
    ensures { IfSome result (λ m. m.parties ≡ q.now.graph.parties) }
{
    let g = &q.graph;
    let mut p = Partial::empty(g).with_image(q.first, q.u);
    if !p.agrees(q.second, q.v) {
        return None;
    }
    p = p.with_image(q.second, q.v);
    for _ in 0..g.parties {
        let Some(x) = p.next_party() else { break };
        let y = p.find_image(x)?;
        p = p.with_image(x, y);
    }
    Map::one_to_one(g, &p.images)
}
