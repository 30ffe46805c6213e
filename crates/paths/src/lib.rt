// The path and next-word calls.
#![tactic(auto)]

mod call;

pub use call::{given_word, legal_given_word, next_call, path_call};
