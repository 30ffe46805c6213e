// Sets of up to 32 places as masks of 32 bits, rows of 32 masks, and tables of 32 rows, by value.
#![tactic(auto)]

ghost use Rattle.std.specs.Prelude.{◌≡◌, true, ◌&&◌, ℕ, ◌<◌};
ghost use Rattle.limits.specs.Limits.{most_parties, mask_places};
ghost use Rattle.masks.specs.promises.Mask.{test_bit, with_bit};
ghost use Rattle.masks.specs.promises.Table.{mask_in, mask_at};

use limits::MOST_PARTIES;

// Whether a place of the mask is set.
// Kept: here and below `place < mask_places` and `v < most_parties` are what a shift and an index ask; a type would ask it at each call.
#[tactic(auto, using(crate::proofs::BitLaws::test_code))]
pub fn has(mask: u32, place: u32) -> bool
    requires { place < mask_places }
    ensures { result ≡ test_bit mask place }
{
    (mask >> place) & 1 == 1
}

// The mask with one more place set.
pub fn with(mask: u32, place: u32) -> u32
    requires { place < mask_places }
    ensures { result ≡ with_bit mask place }
{
    mask | (1u32 << place)
}

#[derive(Clone, Copy)]
pub struct Row {
    pub masks: [u32; MOST_PARTIES],
}

impl Row {
    // A row of empty masks.
    pub fn empty() -> Row
        ensures { (v : ℕ) → mask_in result v ≡ 0 }
    {
        Row {
            masks: [0u32; MOST_PARTIES],
        }
    }

    // A row of full masks.
    pub fn full() -> Row
        ensures { (u v : ℕ) → u < most_parties → v < mask_places → test_bit (mask_in result u) v ≡ true }
    {
        Row {
            masks: [u32::MAX; MOST_PARTIES],
        }
    }

    // The row with another mask for v.
    pub fn put_mask(mut self, v: usize, mask: u32) -> Row
        requires { v < most_parties }
        ensures same { mask_in result v ≡ mask }
        ensures other { (x : ℕ) → (x ≡ v → ⊥) → mask_in result x ≡ mask_in self x }
    {
        self.masks[v] = mask;
        self
    }

    // The row with one more place set in the mask of v.
    pub fn add(self, v: usize, place: u32) -> Row
        requires { (v < most_parties) × (place < mask_places) }
        ensures same { mask_in result v ≡ with_bit (mask_in self v) place }
        ensures other { (x : ℕ) → (x ≡ v → ⊥) → mask_in result x ≡ mask_in self x }
    {
        let m = self.masks[v];
        self.put_mask(v, with(m, place))
    }

    // The places that both rows have.
    pub fn common(self, other: Row) -> Row
        ensures { (u v : ℕ) → test_bit (mask_in result u) v ≡ (test_bit (mask_in self u) v && test_bit (mask_in other u) v) }
    {
        let mut row = self;
        for u in 0..MOST_PARTIES {
            row.masks[u] &= other.masks[u];
        }
        row
    }
}

#[derive(Clone, Copy)]
pub struct Table {
    pub rows: [Row; MOST_PARTIES],
}

impl Table {
    // A table of empty rows.
    pub fn empty() -> Table
        ensures { (u v : ℕ) → mask_at result u v ≡ 0 }
    {
        let row = Row::empty();
        Table {
            rows: [row; MOST_PARTIES],
        }
    }

    // The table with another row for u.
    pub fn put_row(mut self, u: usize, row: Row) -> Table
        requires { u < most_parties }
        ensures same { (v : ℕ) → mask_at result u v ≡ mask_in row v }
        ensures other { (x v : ℕ) → (x ≡ u → ⊥) → mask_at result x v ≡ mask_at self x v }
    {
        self.rows[u] = row;
        self
    }
}
