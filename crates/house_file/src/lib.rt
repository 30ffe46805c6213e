// The house file: its chains followed, check and decode.
#![tactic(auto)]

mod chain;
mod decode;

pub use decode::{House, check, read};
