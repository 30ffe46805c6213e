// A house file's parts: its header, one record, and what a check answers. Only this crate and house_file read file bytes.
#![tactic(auto)]

mod header;
mod record;
mod reply;

pub use header::{
    HEAD_SIZE, HEADER_SIZE, Header, LONGEST_FILE, OWNED_RECORD, fields_in_range, read_header,
    record_size,
};
pub use record::{
    PERMIT_BIT, PERMIT_KIND, Record, UNKNOWN_BIT, UNKNOWN_FROM, bit_of, check_record, read_record,
};
pub use reply::Refusal;
