// A rule list made elsewhere, held against a file's permit table.
#![tactic(auto)]

mod call;
mod difference;

pub use call::{Difference, compare_call};
