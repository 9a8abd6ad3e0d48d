// The format of the messages of RFC 643: their layout, and the tests 3 to 6.
//
// A message is ten bytes, then a string of 0 to 256 bytes. ARG1 and ARG2 are high byte first:
//
//     byte   0     1     2     3      4    5    6 and 7  8 and 9  from 10
//            TYPE  HOST  LINK  STYPE  CMD  PID  ARG1     ARG2     string
//            0           255   0
#![tactic(auto)]

mod answer;
mod header;
mod outcome;
mod refusal;
mod sizes;
pub mod theorems;

pub use header::{Header, fixed_right, put_string, string};
pub use outcome::{Refusal, number_of};
pub use refusal::check_layout;
pub use sizes::{HEADER_BYTES, MESSAGE_BYTES, STRING_BYTES};
