// A packet of the Pup door, at the process of the door: what its tests find, what it does, and the words that acknowledge it.
#![tactic(auto)]

mod ack;
mod answer;
mod effect;
mod request;
mod rule;

pub use answer::packet_for_process;
