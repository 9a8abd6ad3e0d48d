// Numbers as text: decimal, without sign or leading zeros. They are read at an index of a line, each after a single blank, and written
// from an index of a buffer on.
#![tactic(auto)]

mod field;
mod number;
pub mod theorems;
mod width;

pub use field::{put_field, put_number};
pub use number::Number;
pub use width::Width;
