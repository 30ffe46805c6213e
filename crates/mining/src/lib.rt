// The terms of mining: the words that tell one pair from another, a term as it grows, and the pairs in turn.
#![tactic(auto)]

mod build;
mod kept;
mod lacked;
mod pairs;
mod take;
mod term;

pub use build::{Obstacle, Pair, build_term};
pub use take::{Taken, is_due, take_due};
pub use term::add_word;
