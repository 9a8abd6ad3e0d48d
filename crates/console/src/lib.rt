// A gateway driven by lines on standard input and output, in one of three languages: that of the bench, where each line is a request,
// that of recordings, and that of the text door.
//
// What a person types is answered line by line; what comes through a pipe is read and written in blocks.
#![tactic(auto)]

mod input;

pub use input::{bench, replay, text_door};
