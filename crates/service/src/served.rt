// What a call at one process returns.
use format::Refusal;
use process::Process;

// The outcome, and the process after it.
#[derive(Clone, Copy)]
pub struct ServiceResult {
    pub outcome: Result<usize, Refusal>,
    pub process: Process,
}

// The same of a report, with the length of the line that it answers, or 0.
#[derive(Clone, Copy)]
pub struct ReportServed {
    pub outcome: Result<usize, Refusal>,
    pub line: usize,
    pub process: Process,
}
