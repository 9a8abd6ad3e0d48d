// A breakpoint: its entry, what it may be looked for as, and its word in memory.
#![tactic(auto)]

mod entry;
mod entry_query;
mod memory;

pub use entry::{Breakpoint, valid_break_address};
pub use entry_query::EntryQuery;
