// The record of one process: what is known of it, its breakpoints, and whether it is sound.
#![tactic(auto)]

mod break_requests;
mod debug_requests;
mod existence;
mod find;
mod memory_requests;
mod packet_requests;
mod planting;
mod record;
mod report;
mod run_requests;
mod saved_words;
mod sound;
mod text_requests;
pub mod theorems;
mod watch_requests;

pub use record::{ENTRIES, MEMORY_BYTES, Process, VECTOR_BYTES};
pub use report::ReportResult;
pub use sound::valid_size;
