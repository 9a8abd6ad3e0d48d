// The state of the gateway as the definitions have it: eight process records, and where in the one memory each process's bytes lie.
#![tactic(auto)]

mod memory;
mod sizes;
pub mod theorems;

pub use memory::{CAPACITY, close};
pub use sizes::size_of;
