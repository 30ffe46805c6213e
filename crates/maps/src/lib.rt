// One-to-one maps of parties that carry every symbol. Where one takes a pair to another, that one has every word of the pair, with at
// least as many paths.
#![tactic(auto)]

mod carry;
mod find;
mod pair;

pub use pair::carried;
