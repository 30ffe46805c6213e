// The canonical file's parts, written to a lent output; every other byte is kept.
ghost use Rattle.std.specs.Prelude.{◌≡◌, ◌≤◌, length};
ghost use Rattle.fields.specs.promises.Writing.{put};
ghost use Rattle.canonical.specs.Canonical.{header_bytes};
ghost use Rattle.canonical.specs.promises.Masks.{HeaderFits, Written};

use crate::chain::{Chain, link_to, put_pair};
use crate::count::Firsts;
use crate::kinds::Kinds;
use crate::matter::MatterIn;
use fields::put_u16;
use house_layout::{HEAD_SIZE, HEADER_SIZE, Header};

#[tactic(auto, using(crate::proofs::WriteLaws::header_put))]
fn put_header(out: &mut [u8], h: Header)
    requires { HeaderFits h (length out.old) }
    ensures { out.new ≡ put out.old 0 (header_bytes h) }
{
    out[0] = h.edition as u8;
    out[1] = h.parties as u8;
    out[2] = h.labels as u8;
    out[3] = h.language as u8;
    out[4] = h.longest as u8;
    out[5] = 0;
    put_u16(out, 6, h.records);
}

// A matter with the numbers of its first records, and with the header that is written.
#[derive(Clone, Copy)]
pub struct Numbered<'a, 'b> {
    pub matter: MatterIn<'a>,
    pub firsts: &'b Firsts,
    ghost written: { Written matter firsts.now },
}

impl Numbered<'_, '_> {
    ghost use Rattle.std.specs.Prelude.{◌+◌, ◌*◌, ◌-◌, ◌<◌};
    ghost use Rattle.lists.specs.Lists.{flat_map, range};
    ghost use Rattle.house_layout.specs.Layout.{header_size, owned_record, head_place};
    ghost use Rattle.canonical.specs.Canonical.{entries_of, records_for, heads_by, record_bytes};
    ghost use Rattle.canonical.specs.Canonical.{canonical_of, written_edition};
    ghost use Rattle.canonical.specs.promises.Masks.{matter_by, chain_bytes, numbers_in, FileFits};

    // Party u's records.
    #[tactic(auto, using(crate::proofs::CountLaws::row_none, crate::proofs::WriteLaws::chain_none, fields::proofs::PutLaws::put_nil))]
    fn put_party(&self, out: &mut [u8], u: usize)
        requires party { u < self.now.matter.header.parties }
        requires room { FileFits self.now.matter (length out.old) }
        ensures { out.new
            ≡ put out.old (head_place self.now.matter.header.parties + owned_record * (numbers_in self.now.firsts.now u - 1))
            (chain_bytes (numbers_in self.now.firsts.now (u + 1)) (numbers_in self.now.firsts.now u)
            (entries_of (matter_by self.now.matter) u)) }
    {
        let m = self.matter;
        let base = HEADER_SIZE + HEAD_SIZE * m.header.parties;
        let kinds = Kinds {
            labels: m.header.labels,
        };
        let chain = Chain {
            owner: u,
            base,
            end: self.firsts.numbers[u + 1],
            kinds,
        };
        let row = &m.masks.rows[u];
        let mut next = self.firsts.numbers[u];
        for v in 0..m.header.parties {
            next = put_pair(out, chain, v, row.masks[v], next);
        }
    }

    // The records of all parties.
    #[tactic(auto, using(crate::proofs::WriteLaws::records_none, fields::proofs::PutLaws::put_nil))]
    fn put_records(&self, out: &mut [u8])
        requires { FileFits self.now.matter (length out.old) }
        ensures { out.new ≡ put out.old (head_place self.now.matter.header.parties)
            (flat_map record_bytes
            (flat_map (records_for written_edition (matter_by self.now.matter)) (range self.now.matter.header.parties))) }
    {
        for u in 0..self.matter.header.parties {
            self.put_party(out, u);
        }
    }

    // The heads of all parties.
    #[tactic(auto, using(crate::proofs::WriteLaws::heads_none, fields::proofs::PutLaws::put_nil))]
    fn put_heads(&self, out: &mut [u8])
        requires { FileFits self.now.matter (length out.old) }
        ensures { out.new ≡ put out.old header_size (heads_by (numbers_in self.now.firsts.now) self.now.matter.header.parties) }
    {
        let numbers = &self.firsts.numbers;
        for u in 0..self.matter.header.parties {
            put_u16(
                out,
                HEADER_SIZE + HEAD_SIZE * u,
                link_to(numbers[u + 1], numbers[u]),
            );
        }
    }

    // The whole file.
    pub fn put_file(&self, out: &mut [u8])
        requires { FileFits self.now.matter (length out.old) }
        ensures { out.new ≡ put out.old 0 (canonical_of written_edition (matter_by self.now.matter)) }
    {
        put_header(out, self.matter.header);
        self.put_heads(out);
        self.put_records(out);
    }
}
