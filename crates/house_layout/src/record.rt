// One record: its bytes, and the checks that it is held to.
ghost use Rattle.std.specs.Prelude.{◌≡◌, not, ◌+◌, ◌≤◌, ◌<◌, length, eqb};
ghost use Rattle.limits.specs.Limits.{most_parties, most_labels};
ghost use Rattle.masks.specs.promises.Mask.{test_bit};
ghost use Rattle.masks.specs.promises.Table.{mask_in};
ghost use Rattle.fields.specs.Numbers.{byte_at};
ghost use Rattle.house_layout.specs.Layout.{record_size, owner_in, record_of};
ghost use Rattle.house_layout.specs.promises.Places.{RecordThere};
ghost use Rattle.house_layout.specs.Fields.{foreign, legal_target, legal_kind, judge_record};
ghost use Rattle.house_layout.specs.promises.Kinds.{bit_of, opposite_kind, contrary_in};

use crate::header::{HEAD_SIZE, HEADER_SIZE, Header, record_size};
use crate::reply::Refusal;
use fields::u16_at;
use masks::Row;

// The kind bytes of unknown label 0 and of a permit, and their places in a mask of kinds.
pub const UNKNOWN_FROM: usize = 128;

pub const UNKNOWN_BIT: u32 = 8;

pub const PERMIT_KIND: usize = 255;

pub const PERMIT_BIT: u32 = 31;

#[derive(Clone, Copy)]
pub struct Record {
    pub target: usize,
    pub kind: usize,
    // Kept: 0 stands for no record, as in the file's bytes and in the definitions; the number is an index too.
    pub next: usize,
    // None in edition 1, which has no byte for it.
    pub owner: Option<usize>,
}

// The owner that the record at a place says.
// Kept: an edition is a number of the header, as in `record_size`.
#[tactic(auto, unfolding(crate::specs::Layout::owner_in, crate::specs::Layout::record_size))]
fn read_owner(file: &[u8], edition: usize, at: usize) -> Option<usize>
    requires { at + record_size edition ≤ length file.now }
    ensures { result ≡ owner_in edition (byte_at file.now (at + 4)) }
{
    if edition == 1 {
        return None;
    }
    Some(usize::from(file[at + 4]))
}

// Record r of a file whose length is right; with `read_owner` the one place that knows a record's bytes.
// Kept: `house_file::Frame` is file and header in one type, one crate up, where fields and length have passed; here they have not.
#[tactic(auto, using(crate::proofs::LayoutLaws::record_laws), unfolding(crate::specs::Layout::record_of))]
pub fn read_record(file: &[u8], h: Header, r: usize) -> Record
    requires { RecordThere file.now h r }
    ensures { result ≡ record_of file.now r }
{
    let at = HEADER_SIZE + HEAD_SIZE * h.parties + record_size(h.edition) * (r - 1);
    Record {
        target: usize::from(file[at]),
        kind: usize::from(file[at + 1]),
        next: u16_at(file, at + 2),
        owner: read_owner(file, h.edition, at),
    }
}

// The place of a kind in a mask of kinds.
// Kept: a kind byte is a number, 128 and up for an unknown relation, 255 for a permit, in the file and in the definitions; a conversion
// that has a `requires` is a function.
pub fn bit_of(kind: usize) -> u32
    requires { kind < 256 }
    ensures { result ≡ bit_of kind }
{
    if kind == PERMIT_KIND {
        PERMIT_BIT
    } else if kind < UNKNOWN_FROM {
        kind as u32
    } else {
        UNKNOWN_BIT + (kind - UNKNOWN_FROM) as u32
    }
}

fn foreign_owner(u: usize, owner: Option<usize>) -> bool
    ensures { result ≡ foreign u owner }
{
    owner.is_some_and(|p| p != u)
}

fn legal_target(parties: usize, u: usize, target: usize) -> bool
    ensures { result ≡ legal_target parties u target }
{
    target < parties && target != u
}

// Kept: a kind stays a number after this test too: masks and definitions compute with it.
fn legal_kind(labels: usize, kind: usize) -> bool
    requires { labels ≤ most_labels }
    ensures { result ≡ legal_kind labels kind }
{
    kind < labels || (UNKNOWN_FROM..UNKNOWN_FROM + labels).contains(&kind) || kind == PERMIT_KIND
}

// The kind of the same label that says the other: unknown for known, known for unknown.
fn opposite_kind(kind: usize) -> usize
    requires { kind < 256 }
    ensures { result ≡ opposite_kind kind }
{
    if kind < UNKNOWN_FROM {
        UNKNOWN_FROM + kind
    } else {
        kind - UNKNOWN_FROM
    }
}

// The checks 4, 15, 6, 7, 8, 16 of one record of party u's chain: `mark` is not 0 where the record was reached before, and `row` has
// the kinds of the chain's earlier records.
// Kept: `mark` is a byte, since a bool would be a narrower type in a public function.
#[tactic(auto, unfolding(crate::specs::Fields::judge_record, crate::specs::promises::Kinds::contrary_in))]
pub fn check_record(h: Header, u: usize, x: Record, mark: u8, row: Row) -> Result<(), Refusal>
    requires { (h.parties ≤ most_parties) × (h.labels ≤ most_labels) }
    ensures { result ≡ judge_record h.parties h.labels u x (not (eqb mark 0))
        (test_bit (mask_in row x.target) (bit_of x.kind)) (contrary_in (mask_in row x.target) x.kind) }
{
    if mark != 0 {
        return Err(Refusal::Again);
    }
    if foreign_owner(u, x.owner) {
        return Err(Refusal::Owner);
    }
    if !legal_target(h.parties, u, x.target) {
        return Err(Refusal::Target);
    }
    if !legal_kind(h.labels, x.kind) {
        return Err(Refusal::Kind);
    }
    let seen = row.masks[x.target];
    if masks::has(seen, bit_of(x.kind)) {
        return Err(Refusal::Repeat);
    }
    if x.kind != PERMIT_KIND && masks::has(seen, bit_of(opposite_kind(x.kind))) {
        return Err(Refusal::Contrary);
    }
    Ok(())
}
