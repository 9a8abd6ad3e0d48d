// The gateway: what answers the requests of the network, the text lines of the bench, the packets of the Pup door and the reports of the machine. Its state is a lent buffer
// of 785 bytes: a call tests them where they lie, reads the one process that it goes to, and writes that one back. All processes lie in one lent
// memory, and the state says where each begins; only CREATE and DESTROY change that.
// State and memory are lent to each call as two parameters, and no struct of them: C and the programs lend them so, a tick and a query take the
// state alone, and the clauses of the calls name each.
#![tactic(auto)]

mod fresh;
mod gone;
mod kept;
mod lengths;
mod lent;
mod part;
mod pup_door;
mod queries;
mod reports;
mod requests;
mod text_lines;
pub mod theorems;

pub use fresh::{fresh_start, sizes_right};
pub use lengths::{line_length, notice_length, reply_length};
pub use pup_door::{packet, tick};
pub use queries::why;
pub use reports::{Told, report};
pub use requests::request;
pub use text_lines::text_line;
