// A matter written as a house file in one canonical order.
#![tactic(auto)]

mod call;
mod chain;
mod count;
mod kinds;
mod matter;
mod numbered;
mod write;

pub use call::write_call;
pub use write::write_matter;
