// The whole file: its check and what it says, in one pass.
ghost use Rattle.std.specs.Prelude.{◌≡◌, ℕ};
ghost use Rattle.masks.specs.promises.Mask.{test_bit};
ghost use Rattle.masks.specs.promises.Table.{mask_in, mask_at};
ghost use Rattle.house_layout.specs.promises.Kinds.{permit_bit};
ghost use Rattle.house_file.specs.Check.{check_of};
ghost use Rattle.house_file.specs.promises.Decoded.{ReadAs};

use crate::chain::Frame;
use house_layout::{
    HEAD_SIZE, HEADER_SIZE, Header, PERMIT_BIT, Refusal, fields_in_range, read_header, record_size,
};
use limits::{MASK_PLACES, MOST_PARTIES};
use masks::{Row, Table};

// What an accepted file says: `kinds` has for each pair the kinds recorded, `permits` for each first party the permitted second ones.
#[derive(Clone, Copy)]
pub struct House {
    pub header: Header,
    pub kinds: Table,
    pub permits: Row,
}

// The parties that a row has a permit for.
fn permit_mask(row: Row) -> u32
    ensures { (v : ℕ) → test_bit result v ≡ test_bit (mask_in row v) permit_bit }
{
    let mut mask = 0;
    for v in 0..MASK_PLACES {
        if masks::has(row.masks[v as usize], PERMIT_BIT) {
            mask = masks::with(mask, v);
        }
    }
    mask
}

// The permit table: a mask for each first party.
fn permit_masks(kinds: Table) -> Row
    ensures { (u v : ℕ) → test_bit (mask_in result u) v ≡ test_bit (mask_at kinds u v) permit_bit }
{
    let mut permits = Row::empty();
    for u in 0..MOST_PARTIES {
        permits = permits.put_mask(u, permit_mask(kinds.rows[u]));
    }
    permits
}

// Checks and decodes any bytes.
#[tactic(auto, using(crate::proofs::WellFormedLaws::check_short, crate::proofs::WellFormedLaws::check_field))]
pub fn read(file: &[u8]) -> Result<House, Refusal>
    ensures { ReadAs file.now result }
{
    if file.len() < HEADER_SIZE {
        return Err(Refusal::Length);
    }
    let header = read_header(file);
    if !fields_in_range(file, header) {
        return Err(Refusal::Field);
    }
    if file.len()
        != HEADER_SIZE + HEAD_SIZE * header.parties + record_size(header.edition) * header.records
    {
        return Err(Refusal::Length);
    }
    let kinds = Frame { file, header }.read_chains()?;
    let permits = permit_masks(kinds);
    Ok(House {
        header,
        kinds,
        permits,
    })
}

// The check of any bytes: accepted, or the first refusal in 01's order; in 01's number and values by `said_check` (`check_said`).
pub fn check(file: &[u8]) -> Result<(), Refusal>
    ensures { result ≡ check_of file.now }
{
    read(file)?;
    Ok(())
}
