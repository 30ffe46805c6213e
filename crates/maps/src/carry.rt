// The one-to-one maps of parties, and the check that one carries every symbol.
ghost use Rattle.std.specs.Prelude.{◌≡◌, true, ◌≤◌, ◌<◌, IfSome};
ghost use Rattle.limits.specs.Limits.{most_parties};
ghost use Rattle.maps.specs.promises.Images.{OneToOne};

use limits::MOST_PARTIES;
use masks::{Row, Table};
use search::{Graph, TwoPairsIn};

// A one-to-one map of the parties below `parties`: the image of each is one of them, no two the same.
// Kept: a count beside an array, since there is no heap here and room for 32.
#[derive(Clone, Copy)]
pub struct Map {
    pub parties: usize,
    pub image: [u8; MOST_PARTIES],
    ghost within: { parties ≤ most_parties },
    ghost one_to_one: { OneToOne parties image },
}

impl Map {
    ghost use Rattle.rebac.specs.Matter.{pair};
    ghost use Rattle.maps.specs.promises.Maps.{image_of, RowCarried, CarriesSymbols, Covered};

    // The map with these images, where each party of the graph has one among them, and no two the same.
    pub fn one_to_one(g: &Graph, images: &[Option<u8>; MOST_PARTIES]) -> Option<Map>
        ensures { IfSome result (λ m. m.parties ≡ g.now.parties) }
    {
        let mut image = [0u8; MOST_PARTIES];
        let mut used: u32 = 0;
        for u in 0..g.parties {
            let x = images[u]?;
            if g.parties <= x as usize {
                return None;
            }
            if masks::has(used, x as u32) {
                return None;
            }
            used = masks::with(used, x as u32);
            image[u] = x;
        }
        Some(Map {
            parties: g.parties,
            image,
        })
    }

    // Kept: u is held to the map beside it, as an index to its slice's length; a type for it would carry the map along.
    pub fn image_of(&self, u: usize) -> usize
        requires { u < self.now.parties }
        ensures within { result < self.now.parties }
        ensures value { result ≡ image_of self.now u }
    {
        self.image[u] as usize
    }

    // Whether the masks of a party's row are contained in those of its image's row, each in that to the image of its own party.
    fn row_carried(&self, row: &Row, image: &Row) -> bool
        ensures { result ≡ true → RowCarried row.now image.now self.now }
    {
        (0..self.parties).all(|v| {
            let s = row.masks[v];
            s & image.masks[self.image_of(v)] == s
        })
    }

    // Whether the map carries every symbol.
    pub fn carries(&self, g: &Table) -> bool
        ensures { result ≡ true → CarriesSymbols g.now self.now }
    {
        (0..self.parties).all(|u| self.row_carried(&g.rows[u], &g.rows[self.image_of(u)]))
    }

    // Whether the map takes the own pair to the other one and carries every symbol.
    pub fn takes(&self, q: &TwoPairsIn) -> bool
        requires { self.now.parties ≡ q.now.graph.parties }
        ensures { result ≡ true
            → Covered q.now.graph.parties q.now.graph.table (pair q.now.first q.now.second) (pair q.now.u q.now.v) }
    {
        self.image_of(q.first) == q.u
            && self.image_of(q.second) == q.v
            && self.carries(&q.graph.table)
    }
}
