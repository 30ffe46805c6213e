// The header: its fields, their ranges, and the length that it says.
ghost use Rattle.std.specs.Prelude.{◌≡◌, ◌≤◌, length};
ghost use Rattle.house_layout.specs.Layout.{header_of, header_size, record_size};
ghost use Rattle.house_layout.specs.Fields.{within, fields_in_range};

use fields::u16_at;
use limits::{LAST_LANGUAGE, LONGEST_WORD, MOST_LABELS, MOST_PARTIES, MOST_RECORDS};

// Editions 1 and 2 are read.
const LAST_EDITION: usize = 2;

// The bytes of the header, of a head, and of a record without and with its owner.
pub const HEADER_SIZE: usize = 8;

pub const HEAD_SIZE: usize = 2;

pub const PLAIN_RECORD: usize = 4;

pub const OWNED_RECORD: usize = 5;

// The longest file: one of edition 2.
pub const LONGEST_FILE: usize = HEADER_SIZE
    + HEAD_SIZE * MOST_PARTIES
    + OWNED_RECORD * MOST_RECORDS;

#[derive(Clone, Copy)]
pub struct Header {
    pub edition: usize,
    pub parties: usize,
    pub labels: usize,
    pub language: usize,
    pub longest: usize,
    pub records: usize,
}

// The header's numbers.
pub fn read_header(file: &[u8]) -> Header
    requires { header_size ≤ length file.now }
    ensures { result ≡ header_of file.now }
{
    Header {
        edition: usize::from(file[0]),
        parties: usize::from(file[1]),
        labels: usize::from(file[2]),
        language: usize::from(file[3]),
        longest: usize::from(file[4]),
        records: u16_at(file, 6),
    }
}

fn in_range(low: usize, high: usize, x: usize) -> bool
    ensures { result ≡ within low high x }
{
    (low..=high).contains(&x)
}

// Whether every header field is in its range.
#[tactic(auto, unfolding(crate::specs::Fields::fields_in_range))]
pub fn fields_in_range(file: &[u8], h: Header) -> bool
    requires { (header_size ≤ length file.now) × (h ≡ header_of file.now) }
    ensures { result ≡ fields_in_range file.now }
{
    in_range(1, LAST_EDITION, h.edition)
        && in_range(1, MOST_PARTIES, h.parties)
        && in_range(1, MOST_LABELS, h.labels)
        && h.language <= LAST_LANGUAGE
        && in_range(1, LONGEST_WORD, h.longest)
        && file[5] == 0
        && h.records <= MOST_RECORDS
}

// A record's bytes in an edition.
// Kept: an edition is a number of the header, and the definitions of a file say it as one.
#[tactic(auto, unfolding(crate::specs::Layout::record_size))]
pub fn record_size(edition: usize) -> usize
    ensures { result ≡ record_size edition }
{
    if edition == 1 {
        PLAIN_RECORD
    } else {
        OWNED_RECORD
    }
}
