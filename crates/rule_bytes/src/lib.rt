// The bytes of rule lists: checked, read and written.
#![tactic(auto)]

mod check;
mod read;
mod words;
mod write;

pub use check::check_list;
pub use read::{WordRead, read_word};
pub use words::Words;
pub use write::put_word;
