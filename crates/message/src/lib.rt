// How each end writes and reads the messages of RFC 643: the desk writes requests and reads answers, the gateway the other way round.
#![tactic(auto)]

mod answer;
mod exchange;
mod request;
pub mod theorems;

pub use answer::{read_answer, write_contents, write_notice, write_reply};
pub use request::{read_request, write_request};
