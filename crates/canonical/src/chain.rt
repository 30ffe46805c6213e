// The records of one party's chain, written to a lent output; every other byte is kept.
ghost use Rattle.std.specs.Prelude.{◌≡◌, ◌+◌, ◌*◌, ◌-◌, ◌≤◌, length};
ghost use Rattle.fields.specs.promises.Writing.{put};
ghost use Rattle.house_layout.specs.Layout.{owned_record};
ghost use Rattle.canonical.specs.Canonical.{link, record_bytes};
ghost use Rattle.canonical.specs.promises.Masks.{kinds_in, pair_bytes, RecordFits, PairFits};

use crate::kinds::Kinds;
use fields::put_u16;
use house_layout::{OWNED_RECORD, Record};

// A head or next: the number where it is before the chain's end, else 0.
// Kept: 0 stands for no record, as in `house_layout::Record` and in the definition `link`.
pub fn link_to(end: usize, number: usize) -> usize
    ensures { (result ≡ link end number) × (result ≤ number) }
{
    if number < end {
        return number;
    }
    0
}

#[tactic(auto, using(crate::proofs::WriteLaws::front_put, crate::proofs::WriteLaws::missing_put, crate::proofs::WriteLaws::owner_put))]
fn put_record(out: &mut [u8], at: usize, x: Record)
    requires { RecordFits x at (length out.old) }
    ensures { out.new ≡ put out.old at (record_bytes x) }
{
    out[at] = x.target as u8;
    out[at + 1] = x.kind as u8;
    put_u16(out, at + 2, x.next);
    if let Some(u) = x.owner {
        out[at + 4] = u as u8;
    }
}

// One party's chain: its owner, the place of record 1, the number past the chain's last record, and the kinds that it can have.
#[derive(Clone, Copy)]
pub struct Chain {
    pub owner: usize,
    pub base: usize,
    pub end: usize,
    pub kinds: Kinds,
}

// The records of one pair, from record `number` on, and the number after them.
#[tactic(auto, using(crate::proofs::WriteLaws::pair_laws))]
pub fn put_pair(out: &mut [u8], chain: Chain, target: usize, mask: u32, number: usize) -> usize
    requires { PairFits chain target mask number (length out.old) }
    ensures { (result ≡ number + length (kinds_in chain.kinds.labels mask))
        × (out.new
        ≡ put out.old (chain.base + owned_record * (number - 1))
        (pair_bytes chain.end number chain.owner target (kinds_in chain.kinds.labels mask))) }
{
    let kinds = chain.kinds;
    let mut next = number;
    for place in 0..kinds.places() {
        if kinds.says_at(mask, place) {
            let x = Record {
                target,
                kind: kinds.kind_at(place),
                next: link_to(chain.end, next + 1),
                owner: Some(chain.owner),
            };
            put_record(out, chain.base + OWNED_RECORD * (next - 1), x);
            next += 1;
        }
    }
    next
}
