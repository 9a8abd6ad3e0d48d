// The tests 7 to 12, 15 and 16 of a request to one process, and what they find: the entry that it goes to, or a refusal.
#![tactic(auto)]

mod decision;
mod rights;
mod rule;

pub use decision::decide;
pub use rights::{debugs, may_look};
