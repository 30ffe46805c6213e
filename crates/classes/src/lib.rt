// The first telling word over a graph in letters, by prefixes: a prefix is passed over where no classes after it tell.
// Where letters are too many, whole lengths are passed over alike.
#![tactic(auto)]

mod by_words;
mod lengths;
mod pairs;
mod seek;

pub use lengths::first_telling_word;
