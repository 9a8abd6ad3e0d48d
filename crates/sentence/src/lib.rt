// Why a request is refused, as a sentence for people; and the names of the op codes and of the run states.
#![tactic(auto)]

mod count;
mod name;
mod op_name;
mod pattern;
mod run_name;
mod sentence;

pub use name::NAME_ROOM;
pub use op_name::put_op_name;
pub use run_name::put_run_name;
pub use sentence::{SENTENCE_ROOM, put_sentence};
