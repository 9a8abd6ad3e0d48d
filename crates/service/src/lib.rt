// A request to one process, or a report about it: what its tests find, what it does, and what is answered.
#![tactic(auto)]

mod effect;
mod reply;
mod report;
mod request;
mod served;
mod target;

pub use effect::changes;
pub use reply::{refuse, reply_plain};
pub use report::{check_report, report_for_process};
pub use request::{answer_create, answer_for_process, size_asked};
pub use served::{ReportServed, ServiceResult};
pub use target::{Target, target_of};
