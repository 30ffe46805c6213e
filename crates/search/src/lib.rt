// The search over the enlarged graph from a pair's first party on, for paths and for forms of words.
#![tactic(auto)]

mod graph;
mod pair;
mod path;
mod search;
mod symbol;
mod word;

pub use graph::Graph;
pub use pair::{PairIn, TwoPairsIn};
pub use path::{NoPath, Path};
pub use symbol::Symbol;
pub use word::{Form, ShortWord, Word};
