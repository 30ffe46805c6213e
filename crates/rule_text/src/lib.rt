// The text of rule lists, as permitconv prints it.
#![tactic(auto)]

mod text;

pub use text::{TermText, hex_digit, list_text, put_term_text};
