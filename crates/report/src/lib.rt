// The text that permitconv prints.
#![tactic(auto)]

mod line;
mod report;

pub use line::{first_line, refused_line};
pub use report::{READ_LIMIT, TEXT_ROOM, write_report};
