// The verdict and mining calls.
#![tactic(auto)]

mod mine;
mod table;
mod verdict;

pub use mine::mining_call;
pub use verdict::{LONGEST_TERM, Verdict, convert, verdict_call};
