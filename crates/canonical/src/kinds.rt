// What a record can say of a pair: a relation of a label, that it is unknown, or a permit.
ghost use Rattle.std.specs.Prelude.{◌≤◌};
ghost use Rattle.limits.specs.Limits.{most_labels};

use house_layout::{PERMIT_KIND, UNKNOWN_FROM, bit_of};

// The kinds in order: the labels, 80 plus them, then a permit's.
#[derive(Clone, Copy)]
pub struct Kinds {
    pub labels: usize,
    ghost few: { labels ≤ most_labels },
}

impl Kinds {
    ghost use Rattle.std.specs.Prelude.{◌≡◌, ◌+◌, ◌*◌, ◌<◌, length, get_or};
    ghost use Rattle.masks.specs.promises.Mask.{test_bit};
    ghost use Rattle.house_layout.specs.promises.Kinds.{bit_of};
    ghost use Rattle.canonical.specs.Canonical.{kind_bytes};
    ghost use Rattle.canonical.specs.promises.Masks.{kinds_in};

    // How many there are.
    pub fn places(self) -> usize
        ensures { result ≡ 2 * self.labels + 1 }
    {
        2 * self.labels + 1
    }

    // The kind byte at a place.
    // Kept: a kind byte is a number, 128 and up for an unknown relation, 255 for a permit, as in `bit_of`.
    #[tactic(auto, using(crate::proofs::CountLaws::kind_laws))]
    pub fn kind_at(self, place: usize) -> usize
        requires { place ≤ 2 * self.labels }
        ensures { (result ≡ get_or (kind_bytes self.labels) place 0) × (result < 256) }
    {
        if place < self.labels {
            return place;
        }
        if place < 2 * self.labels {
            return UNKNOWN_FROM + (place - self.labels);
        }
        PERMIT_KIND
    }

    // Whether a mask has the kind at a place.
    #[tactic(auto, using(crate::proofs::CountLaws::place_small))]
    pub fn says_at(self, mask: u32, place: usize) -> bool
        requires { place ≤ 2 * self.labels }
        ensures { result ≡ test_bit mask (bit_of (get_or (kind_bytes self.labels) place 0)) }
    {
        masks::has(mask, bit_of(self.kind_at(place)))
    }

    // How many kinds a mask has.
    pub fn count_kinds(self, mask: u32) -> usize
        ensures { result ≡ length (kinds_in self.labels mask) }
    {
        (0..self.places())
            .filter(|&place| self.says_at(mask, place))
            .count()
    }
}
