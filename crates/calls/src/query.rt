// Why a request is refused. Such a line changes nothing.
ghost use Rattle.std.specs.Prelude.{◌≡◌, ◌≤◌, length};
ghost use Rattle.lines.specs.declared.scan.Phase.TheVariants.{Open};
ghost use Rattle.lines.specs.Scan.{bytes_of};
ghost use Rattle.calls.specs.Effect.{longest_text, Does};
ghost use Rattle.calls.specs.Meaning.{recounted, why_made, why_effect};

use crate::show::answer_unknown;
use crate::{KEPT, STATE};
use display::put_reason;
use gateway::why;
use lines::{Phase, Scan, at_most};
use reasons::Reason;

// A reason for a message of so many bytes: where it is 3, the length, it tells their number. By its number, and no match on Length: Other(3)
// has it too.
#[tactic(auto, unfolding(crate::specs::Meaning::recounted))]
fn recounted(count: usize, reason: Reason) -> Reason
    ensures { result ≡ recounted count reason }
{
    if reason.number() == 3 {
        return Reason::Length(count);
    }
    reason
}

// Asks about a message of so many bytes, by its first ones, and puts the reason as a line.
fn make_why(
    count: usize,
    state: &[u8; STATE],
    memory: &[u8],
    message: &[u8],
    out: &mut [u8],
) -> usize
    requires { longest_text ≤ length out.old }
    ensures { Does (why_made count message.now state.now memory.now) result state.now memory.now out.old out.new }
{
    let reason = recounted(count, why(state, message));
    put_reason(reason, out)
}

// why HEX HEX ..: all of its pairs led to this phase, there are so many of them, and these are its first ones, more than the longest
// message has or all.
pub fn answer_why(
    phase: Phase,
    count: usize,
    state: &[u8; STATE],
    memory: &[u8],
    pairs: &[u8],
    out: &mut [u8],
) -> usize
    requires { longest_text ≤ length out.old }
    ensures { Does (why_effect phase count (bytes_of Open pairs.now) state.now memory.now) result state.now memory.now out.old out.new }
{
    if !phase.is_full() {
        return answer_unknown(state, memory, out);
    }
    let mut message = [0u8; KEPT];
    let scan = Scan::new().part(pairs, &mut message);
    let n = at_most(scan.len, &message);
    make_why(count, state, memory, &message[..n], out)
}
