// A text line, at the process that it names: what its tests find, what it does, and the line that answers it.
#![tactic(auto)]

mod answer;
mod effect;
mod request;
mod rule;
mod word;

pub use answer::{fail, line_for_process};
