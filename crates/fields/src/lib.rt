// Numbers and bytes at a place of a slice: two-byte fields, pieces written one after another, decimal text.
#![tactic(auto)]

mod decimal;
mod read;
mod write;

pub use decimal::put_decimal;
pub use read::u16_at;
pub use write::{put_bytes, put_u16};
