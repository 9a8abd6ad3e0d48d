// The requests that begin and end the debugging of a process: DEBUG and END DEBUG.
ghost use Rattle.std.specs.Prelude.{◌≡◌};
ghost use Rattle.process.specs.Local.{local, Tested};
ghost use Rattle.process.specs.Record.{with_host};
ghost use Rattle.process.specs.Request.{end_debugged};

use crate::record::Process;

impl Process {
    pub fn debug(self, host: u8) -> Self
        ensures { result ≡ with_host host self }
    {
        self.with_host(host)
    }

    #[tactic(auto, unfolding(crate::specs::Request::end_debugged))]
    pub fn end_debug(self, bytes: &mut [u8]) -> Self
        requires { Tested self bytes.old }
        ensures value { result ≡ (end_debugged (local self bytes.old)).process }
        ensures bytes_after { bytes.new ≡ (end_debugged (local self bytes.old)).bytes }
    {
        self.exchange(bytes)
            .without_breaks()
            .without_session()
            .with_host(0)
            .with_run(self.run.released())
    }
}
