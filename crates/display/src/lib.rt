// Lines of text: the one that shows a process, the one that answers a call, and the one that says why a request is refused.
#![tactic(auto)]

mod answer;
mod entry;
mod reason;
mod record;

pub use answer::put_answer;
pub use reason::put_reason;
pub use record::put_process;
