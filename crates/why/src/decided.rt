// A request to a process: granted, or the first of the tests 7 to 12, 15 and 16 that fails, with its facts.
ghost use Rattle.std.specs.Prelude.{◌≡◌};
ghost use Rattle.format.specs.Outcome.{first_failing};
ghost use Rattle.checks.specs.Decision.{process_tests};
ghost use Rattle.why.specs.ForProcess.{why_for_process};

use crate::facts::reason_for;
use checks::decide;
use format::{Header, number_of};
use process::Process;
use reasons::Reason;

// The number of the first test that fails; 0 where the request is allowed.
fn number_for_process(h: Header, process: Process) -> u8
    ensures { result ≡ first_failing (process_tests h «process») }
{
    number_of(decide(h, process))
}

// Why a request with this header, in a message of so many bytes, is refused by this process, or that it is granted.
pub fn why_for_process(h: Header, count: usize, process: Process) -> Reason
    ensures { result ≡ why_for_process h count «process» }
{
    reason_for(number_for_process(h, process), h, count, process)
}
