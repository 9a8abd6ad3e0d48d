// The requests that stop a process or let it go on: STOP, RESUME, SINGLE STEP and PROCEED BPT. The gateway has tested before that the
// record is sound, that the process has all its bytes, and what the request itself asks.
ghost use Rattle.std.specs.Prelude.{◌≡◌};
ghost use Rattle.process.specs.Local.{local, Tested};
ghost use Rattle.process.specs.Record.{with_run};
ghost use Rattle.process.specs.Request.{brought_to_stop, stopped, stepped, proceeded};

use crate::record::Process;
use breakpoints::EntryQuery;
use run_state::Run;
use session::Owed;

impl Process {
    // STOP but for the owed answer, which stays.
    #[tactic(auto, unfolding(crate::specs::Request::brought_to_stop))]
    fn bring_to_stop(self, bytes: &mut [u8]) -> Self
        requires { Tested self bytes.old }
        ensures value { result ≡ (brought_to_stop (local self bytes.old)).process }
        ensures bytes_after { bytes.new ≡ (brought_to_stop (local self bytes.old)).bytes }
    {
        if self.run.moving() {
            return self.replant(bytes).with_run(Run::Stopped);
        }
        self
    }

    #[tactic(auto, unfolding(crate::specs::Request::stopped))]
    pub fn stop(self, bytes: &mut [u8]) -> Self
        requires { Tested self bytes.old }
        ensures value { result ≡ (stopped (local self bytes.old)).process }
        ensures bytes_after { bytes.new ≡ (stopped (local self bytes.old)).bytes }
    {
        self.bring_to_stop(bytes).owing(Owed::Nothing)
    }

    pub fn resume(self) -> Self
        ensures { result ≡ with_run Run.Running self }
    {
        self.with_run(Run::Running)
    }

    #[tactic(auto, unfolding(crate::specs::Request::stepped))]
    pub fn single_step(self, bytes: &mut [u8]) -> Self
        requires { Tested self bytes.old }
        ensures value { result ≡ (stepped (local self bytes.old)).process }
        ensures bytes_after { bytes.new ≡ (stepped (local self bytes.old)).bytes }
    {
        if self.run.at_break() {
            return self.lift_at(self.pc(), bytes).with_run(Run::Stepping);
        }
        self.with_run(Run::Stepping)
    }

    #[tactic(auto, unfolding(crate::specs::Request::proceeded, crate::specs::Planting::lifted_at, crate::specs::Request::has_break))]
    pub fn proceed(self, bytes: &mut [u8]) -> Self
        requires { Tested self bytes.old }
        ensures value { result ≡ (proceeded (local self bytes.old)).process }
        ensures bytes_after { bytes.new ≡ (proceeded (local self bytes.old)).bytes }
    {
        let Some(k) = self.find(EntryQuery::At(self.pc())) else {
            return self.with_run(Run::Running);
        };
        self.lift_in(k, bytes).with_run(Run::Passing)
    }
}
