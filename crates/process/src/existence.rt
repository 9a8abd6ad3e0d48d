// The requests that a process begins and ends with: CREATE and DESTROY.
ghost use Rattle.std.specs.Prelude.{◌≡◌, ◌≤◌, length};
ghost use Rattle.process.specs.Sizes.{memory_bytes};
ghost use Rattle.process.specs.Request.{created, cleared};

use crate::record::{MEMORY_BYTES, Process};
use run_state::Run;

impl Process {
    // Makes a new process of this host, of this size and with these bytes, which are all zero then. They are
    // copied from an array of zeros, and not filled, as docs/DECISIONS.md says under "The form each place takes".
    #[tactic(auto, unfolding(crate::specs::Request::created))]
    pub fn create(self, host: u8, size: u16, bytes: &mut [u8]) -> Self
        requires { (length bytes.old ≡ size) × (size ≤ memory_bytes) }
        ensures value { result ≡ (created host size).process }
        ensures bytes_after { bytes.new ≡ (created host size).bytes }
    {
        let zeros = [0u8; MEMORY_BYTES];
        bytes.copy_from_slice(&zeros[..size as usize]);
        Process::fresh(true, host, Run::Stopped, size)
    }

    // Clears the record; the process has no bytes any more.
    pub fn destroy(self) -> Self
        ensures { result ≡ cleared }
    {
        Process::cleared()
    }

    // The record of a process that is not there.
    #[tactic(auto, unfolding(crate::specs::Request::cleared))]
    pub fn cleared() -> Self
        ensures { result ≡ cleared }
    {
        Process::fresh(false, 0, Run::Running, 4096)
    }
}
