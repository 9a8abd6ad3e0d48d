// What a machine report does to the process that it is about, and whom it tells.
ghost use Rattle.std.specs.Prelude.{◌≡◌, ◌<◌};
ghost use Rattle.process.specs.Sizes.{entry_count};
ghost use Rattle.session.specs.declared.Owed.TheVariants.{Nothing};
ghost use Rattle.run_state.specs.RunState.{run_after};
ghost use Rattle.process.specs.Record.{entry, with_run, owing};
ghost use Rattle.process.specs.Local.{local, Inside, Tested};
ghost use Rattle.process.specs.Report.{store_vector_and_replant, verdict_of, recipient_of, answer_of, passed, reported};

use crate::record::Process;
use breakpoints::EntryQuery;
use run_state::{BPT, Run};
use session::Owed;

// What a report comes to.
#[derive(Clone, Copy)]
pub enum Verdict {
    // The process stops, and this host is told; 0 is nobody.
    Stops(u8),
    // The process passes the breakpoint in this entry silently.
    CountsDown(usize),
    // The process has executed the instruction under a lifted breakpoint, and runs; nobody is told.
    GoesOn,
}

// A process after a report, the host that is told of it, 0 being nobody, and the owed answer that it gives.
#[derive(Clone, Copy)]
pub struct ReportResult {
    pub process: Process,
    pub told: u8,
    pub answered: Owed,
}

impl Process {
    // Stores the vector, and plants a lifted breakpoint again.
    #[tactic(auto, unfolding(crate::specs::Report::store_vector_and_replant))]
    fn store_vector_and_replant(self, vector: [u16; 9], bytes: &mut [u8]) -> Self
        requires { Inside self bytes.old }
        ensures value { result ≡ (store_vector_and_replant vector (local self bytes.old)).process }
        ensures bytes_after { bytes.new ≡ (store_vector_and_replant vector (local self bytes.old)).bytes }
    {
        self.with_vector(vector).replant(bytes)
    }

    // A TTRAP while passing lets the process go on; a BPT at a breakpoint whose count is above 0 counts down; any other report stops it: who set
    // the breakpoint that a BPT is at is told, else the host.
    #[tactic(auto, unfolding(crate::specs::Report::verdict_of, crate::specs::Report::passes, crate::specs::Report::notice_host, crate::specs::Request::has_break))]
    fn verdict(self, kind: u8) -> Verdict
        ensures { result ≡ verdict_of kind self }
    {
        if self.run.goes_on(kind) {
            return Verdict::GoesOn;
        }
        if kind != BPT {
            return Verdict::Stops(self.host);
        }
        let Some(k) = self.find(EntryQuery::At(self.pc())) else {
            return Verdict::Stops(self.host);
        };
        let b = self.breaks[k];
        if 0 < b.count {
            return Verdict::CountsDown(k);
        }
        Verdict::Stops(b.setter)
    }

    // Passes the breakpoint in entry k: its count falls by one, it is lifted, and a running process is passing.
    fn pass(self, k: usize, bytes: &mut [u8]) -> Self
        requires { (k < entry_count) × Inside self bytes.old × (0 < (entry self k).count) }
        ensures value { result ≡ (passed k (local self bytes.old)).process }
        ensures bytes_after { bytes.new ≡ (passed k (local self bytes.old)).bytes }
    {
        let b = self.breaks[k];
        b.restore(bytes);
        self.with_entry(k, b.with_count(b.count - 1).with_lifted())
            .with_run(self.run.after_pass())
    }

    // This process after a report, whom it tells, and the owed answer that it gives.
    fn telling(self, host: u8, answered: Owed) -> ReportResult
        ensures { (result.process ≡ self) × (result.told ≡ host) × (result.answered ≡ answered) }
    {
        ReportResult {
            process: self,
            told: host,
            answered,
        }
    }

    // This process after a report of this kind that stops it: one host is told, and what is owed is answered.
    fn stopping(self, kind: u8, host: u8) -> ReportResult
        ensures { (result.process ≡ owing Nothing (with_run (run_after kind) self)) × (result.told ≡ host) × (result.answered ≡ self.session.owed) }
    {
        self.with_run(Run::after(kind))
            .owing(Owed::Nothing)
            .telling(host, self.session.owed)
    }

    // This process after a report that nobody is told of.
    fn quietly(self) -> ReportResult
        ensures { (result.process ≡ self) × (result.told ≡ 0) × (result.answered ≡ Nothing) }
    {
        self.telling(0, Owed::Nothing)
    }

    // A report of this kind about a process that accepts it.
    pub fn report(self, bytes: &mut [u8], kind: u8, vector: [u16; 9]) -> ReportResult
        requires { Tested self bytes.old }
        ensures process_value { result.process ≡ (reported kind vector (local self bytes.old)).process }
        ensures told_value { result.told ≡ recipient_of kind vector (local self bytes.old) }
        ensures answered_value { result.answered ≡ answer_of kind vector (local self bytes.old) }
        ensures bytes_after { bytes.new ≡ (reported kind vector (local self bytes.old)).bytes }
    {
        let p = self.store_vector_and_replant(vector, bytes);
        match p.verdict(kind) {
            Verdict::Stops(host) => p.stopping(kind, host),
            Verdict::CountsDown(k) => p.pass(k, bytes).quietly(),
            Verdict::GoesOn => p.with_run(Run::Running).quietly(),
        }
    }
}
