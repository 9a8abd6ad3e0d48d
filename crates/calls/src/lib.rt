// The calls of a recording: what each kind of line does to the bytes of a state and to memory, and what it prints. Adding a kind of line
// takes a definition in specs/Meaning.antt and a function here.
// State, memory, line and buffer are parameters of each call, and no struct of them: the clauses of the public calls name each one, and some
// calls only read the state or the memory.
#![tactic(auto)]

mod call;
mod listing;
mod number;
mod packet;
mod query;
mod show;
mod text;
mod tick;

pub use call::{answer_report, answer_request, answer_start, answer_store};
use fields::LINE_BYTES;
use format::MESSAGE_BYTES;
pub use listing::NO_DOOR;
pub use packet::answer_packet;
pub use query::answer_why;
pub use show::{answer_memory, answer_process, answer_unknown, answer_whole};
use state::CAPACITY;
use state_bytes::STATE_BYTES;
pub use text::{Shown, answer_raw, answer_text};
pub use tick::answer_tick;

// The bytes of a state.
pub const STATE: usize = STATE_BYTES;
// The bytes of the lent memory.
pub const MEMORY: usize = CAPACITY;
// The bytes of a buffer for a reply or a notice, and of the longest message.
pub const MESSAGE: usize = MESSAGE_BYTES;
// One byte more than the longest message: a longer one is answered like its first so many bytes.
const KEPT: usize = 267;
// The bytes of a buffer for a text line, and of the longest text line.
const LINE: usize = LINE_BYTES;
// One byte more than the longest text line: a longer one is answered like its first so many bytes.
const LINE_KEPT: usize = 36;
// No line prints more bytes.
pub const LONGEST_TEXT: usize = 16384;
