// Why a request to one process is refused: the first of the tests that fails, by its number, and the facts that go with it.
#![tactic(auto)]

mod decided;
mod facts;

pub use decided::why_for_process;
pub use facts::reason_without_process;
