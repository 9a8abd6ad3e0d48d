// What a request is to do to a process, by the tests 7 to 12, 15 and 16. What the tests find on the way goes into the decision, so that nothing is looked
// for twice.
ghost use Rattle.std.specs.Prelude.{◌≡◌};
ghost use Rattle.checks.specs.Decision.{decision_of};

use crate::rule::rule_decision;
use format::{Header, Refusal};
use process::Process;

// A request to this process: it changes, for BREAK and UNBREAK in this entry, or the request is refused.
pub fn decide(h: Header, process: Process) -> Result<usize, Refusal>
    ensures { result ≡ decision_of h process }
{
    if !process.there {
        return Err(Refusal::PROCESS);
    }
    rule_decision(h, process)
}
