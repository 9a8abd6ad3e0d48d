// A gateway driven by text, in one of three languages: that of the bench, where each line is a request, that of recordings, where each
// line is a call, and that of the text door, where a line is a text line or a call. What a line does is carried out, and what came of it
// printed; a line that is none prints a question mark and changes nothing. A text may come in blocks of any length. Nothing here reads or
// writes: see `feed`.
#![tactic(auto)]

mod command;
mod feeding;
mod language;
mod line;
mod partial;
pub mod theorems;

pub use feeding::{Fed, feed};
pub use language::{Language, begin};
pub use partial::Partial;

// A line whose word is not `request`, `line`, `raw` or `why` is no longer.
pub const LONGEST_LINE: usize = 1024;
// How much is kept of a line: one byte more, which tells that it is longer.
pub const KEPT: usize = 1025;
