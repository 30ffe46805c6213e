// Letters: one for the least of symbols that hold for the same pairs, and one for each of a graph's different masks.
#![tactic(auto)]

mod different;
mod follow;
mod least;
mod legend;
mod pair;
mod span;
mod write;
mod written;

// A letter is a place of a mask, so there are so many at most.
pub const MOST_LETTERS: usize = 32;

pub use span::Span;
pub use write::{class_letters, letters_of};
pub use written::Letters;
