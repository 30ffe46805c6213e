// The enlarged graph of a house file: for each two different parties the set of symbols that hold, as a mask.
#![tactic(auto)]

mod absent;
mod archive;
mod enlarge;
mod file;
mod pairs;
mod words;

pub use archive::Archive;
pub use file::load;
pub use pairs::is_pair;
pub use words::WordRule;
