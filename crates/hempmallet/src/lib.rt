// The calls as the console's host makes them, through numbers and byte slices.
#![tactic(auto)]

pub mod exports;
mod pack;

pub use pack::{pack_mining, pack_permit, pack_verdict};
