// The canonical file of a matter, written to a lent output.
ghost use Rattle.std.specs.Prelude.{◌≡◌, length};
ghost use Rattle.rebac.specs.Matter.{Matter};
ghost use Rattle.canonical.specs.Canonical.{canonical_of, written_edition};
ghost use Rattle.canonical.specs.promises.Masks.{Stands};
ghost use Rattle.canonical.specs.Calls.{file_reply, file_output, write_in};

use crate::count::first_numbers;
use crate::matter::MatterIn;
use crate::numbered::Numbered;
use house_layout::{HEAD_SIZE, HEADER_SIZE, Header, OWNED_RECORD, Refusal};
use masks::Table;

// The edition that is written.
const WRITTEN_EDITION: usize = 2;

// Writes the canonical file, in edition 2, of the matter that the header's numbers and the masks of kinds stand for.
// The header's edition and R do not matter. Returns the file's length.
// Kept: header and masks stand apart, as `House` has them; the written header is another, so a `MatterIn` would be made anew here.
pub fn write_matter(h: Header, kinds: Table, out: &mut [u8]) -> Result<usize, Refusal>
    requires { (M : Matter) × Stands M h kinds }
    ensures { (M : Matter) → Stands M h kinds → (result ≡ file_reply (write_in (canonical_of written_edition M) (length out.old)))
        × (out.new ≡ file_output (write_in (canonical_of written_edition M) (length out.old)) out.old) }
{
    let masks = &kinds;
    let firsts = first_numbers(&MatterIn { header: h, masks });
    let records = firsts.numbers[h.parties] - 1;
    let size = HEADER_SIZE + HEAD_SIZE * h.parties + OWNED_RECORD * records;
    if out.len() < size {
        return Err(Refusal::Output);
    }
    let header = Header {
        edition: WRITTEN_EDITION,
        records,
        ..h
    };
    let matter = MatterIn { header, masks };
    Numbered {
        matter,
        firsts: &firsts,
    }
    .put_file(out);
    Ok(size)
}
