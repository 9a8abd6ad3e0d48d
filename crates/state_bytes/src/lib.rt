// The byte form of a state: 785 bytes, integers low byte first. Its widths and places stand in widths.rt.
//
//     96 bytes for each of the eight processes, from process 0 on:
//         0        there: 0 or 1
//         1        the host that debugs it, or 0
//         2        run state: 0 running, 1 stepping, 2 stopped, 3 at a breakpoint, 4 ended, 5 passing
//         3, 4     size
//         5        the number of its breakpoints
//         6        the answer that is owed: 0 none, 1 that to a `c`, 2 that to an `s`
//         7        the host that watches it, or 0
//         8        whether a Go waits: 0 or 1
//         9        its ticks
//         10 to 13 its ID
//         14 to 31 the nine words R0 to R5, SP, PC, PS
//         32       8 bytes for each of the eight entries:
//             0        lifted: 0 or 1
//             1        the host that set it, or 0 if the entry is free
//             2, 3     address
//             4, 5     remaining count
//             6, 7     the saved word, as it stood in memory
//     2 bytes for each of the eight processes, from byte 768 on: where it begins in memory
//     1 byte, 784: the process of the Pup door
#![tactic(auto)]

mod door;
mod entry;
mod layout;
mod number;
mod place;
mod process_form;
mod sound;
mod starts;
mod state_form;
pub mod theorems;
mod widths;

pub use door::read_door;
pub use layout::used_bytes;
pub use place::{lowest_absent, put_process_at, read_extent_at, read_process_at};
pub use sound::state_sound;
pub use starts::{put_start, put_starts_without, read_start};
pub use state_form::put_fresh_start;
pub use widths::STATE_BYTES;
