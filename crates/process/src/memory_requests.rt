// The requests that read or change a process's memory or vector: EXAMINE, DEPOSIT and DEPOSIT STATE VECTOR.
ghost use Rattle.std.specs.Prelude.{◌≡◌, ◌+◌, ◌≤◌, length};
ghost use Rattle.process.specs.Sizes.{vector_bytes};
ghost use Rattle.process.specs.Local.{local, Tested};
ghost use Rattle.process.specs.Record.{with_vector};
ghost use Rattle.process.specs.Request.{examined, deposited, vector_after};

use crate::record::Process;
use words::{vector_bytes, vector_of};

impl Process {
    // Copies the seen bytes from address at on to out, as many as it holds.
    #[tactic(auto, unfolding(crate::specs::Request::examined))]
    pub fn examine(self, bytes: &[u8], at: usize, out: &mut [u8])
        requires { at + length out.old ≤ length bytes.now }
        ensures { out.new ≡ examined at (length out.old) (local self bytes.now) }
    {
        out.copy_from_slice(&bytes[at..at + out.len()]);
        self.overlay_saved_words(at, out);
    }

    // Makes a string what is seen from address at on.
    #[tactic(auto, unfolding(crate::specs::Request::deposited, crate::specs::Request::sheltered))]
    pub fn deposit(self, bytes: &mut [u8], at: usize, string: &[u8]) -> Self
        requires tested { Tested self bytes.old }
        requires string_in_bounds { at + length string.now ≤ length bytes.old }
        ensures value { result ≡ (deposited at string.now (local self bytes.old)).process }
        ensures bytes_after { bytes.new ≡ (deposited at string.now (local self bytes.old)).bytes }
    {
        let p = self.exchange(bytes);
        bytes[at..at + string.len()].copy_from_slice(string);
        p.exchange(bytes)
    }

    // Copies a string to the vector's bytes from byte at on.
    #[tactic(auto, unfolding(crate::specs::Request::vector_after))]
    pub fn deposit_vector(self, at: usize, string: &[u8]) -> Self
        requires { at + length string.now ≤ vector_bytes }
        ensures { result ≡ with_vector (vector_after at string.now self.vector) self }
    {
        let mut words = vector_bytes(self.vector);
        words[at..at + string.len()].copy_from_slice(string);
        self.with_vector(vector_of(words))
    }
}
