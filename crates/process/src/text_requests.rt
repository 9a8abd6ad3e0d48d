// What the letters `c` and `s` of a text line do. The gateway has tested before that the record is sound, that the process has all its bytes, and
// what the line itself asks.
ghost use Rattle.std.specs.Prelude.{◌≡◌};
ghost use Rattle.process.specs.Record.{with_vector};
ghost use Rattle.process.specs.Local.{local, Tested};
ghost use Rattle.process.specs.Request.{vector_from, went_on, continued, stepped_from};

use crate::record::Process;
use session::Owed;

impl Process {
    // An address other than 1 becomes the PC.
    #[tactic(auto, unfolding(crate::specs::Request::vector_from))]
    fn going_to(mut self, address: u16) -> Self
        ensures { result ≡ with_vector (vector_from address self.vector) self }
    {
        if address != 1 {
            self.vector[7] = address;
        }
        self
    }

    // PROCEED BPT at a breakpoint, and RESUME else.
    #[tactic(auto, unfolding(crate::specs::Request::went_on))]
    fn go_on(self, bytes: &mut [u8]) -> Self
        requires { Tested self bytes.old }
        ensures value { result ≡ (went_on (local self bytes.old)).process }
        ensures bytes_after { bytes.new ≡ (went_on (local self bytes.old)).bytes }
    {
        if self.run.at_break() {
            return self.proceed(bytes);
        }
        self.resume()
    }

    // `c`: goes on, from the address if it is not 1; its answer is owed.
    #[tactic(auto, unfolding(crate::specs::Request::continued))]
    pub fn continue_from(self, address: u16, bytes: &mut [u8]) -> Self
        requires { Tested self bytes.old }
        ensures value { result ≡ (continued address (local self bytes.old)).process }
        ensures bytes_after { bytes.new ≡ (continued address (local self bytes.old)).bytes }
    {
        self.going_to(address).go_on(bytes).owing(Owed::Continue)
    }

    // `s`: executes one instruction, from the address if it is not 1; its answer is owed.
    #[tactic(auto, unfolding(crate::specs::Request::stepped_from))]
    pub fn step_from(self, address: u16, bytes: &mut [u8]) -> Self
        requires { Tested self bytes.old }
        ensures value { result ≡ (stepped_from address (local self bytes.old)).process }
        ensures bytes_after { bytes.new ≡ (stepped_from address (local self bytes.old)).bytes }
    {
        self.going_to(address).single_step(bytes).owing(Owed::Step)
    }
}
