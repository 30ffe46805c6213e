// The word test: whether a pair has a word, from the word's last symbol back to its first, and how far it gets.
#![tactic(auto)]

mod back;
mod step;
mod test;
mod walk;

pub use back::Back;
pub use test::{Tested, has_word, search_back, word_test};
