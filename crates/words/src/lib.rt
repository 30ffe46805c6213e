// The words of a pair one after another, by searches.
#![tactic(auto)]

mod next;

pub use next::{complete_from, next_same_length, next_word};
