// What a rule list permits: the permit call.
#![tactic(auto)]

mod call;

pub use call::{TermMet, meets_list, meets_term, permit_call};
