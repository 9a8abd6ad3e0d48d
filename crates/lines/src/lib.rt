// Text for people and pipes: bytes as hex pairs. Lines may be of any length and come in parts.
#![tactic(auto)]

mod count;
mod print;
mod scan;
mod text;
pub mod theorems;

pub use count::at_most;
pub use print::{put_bytes, put_pairs};
pub use scan::{Phase, Scan};
pub use text::{put, put_mark};
