// A tick of a tenth of a second, which goes to the process of the Pup door.
ghost use Rattle.std.specs.Prelude.{◌≤◌, length};
ghost use Rattle.calls.specs.Effect.{longest_text, Does};
ghost use Rattle.calls.specs.Meaning.{tick_made, tick_effect};

use crate::STATE;
use crate::call::put_numbered;
use crate::show::answer_unknown;
use format::number_of;
use gateway::tick;

// Makes a tick, and puts its number as a line.
fn make_tick(state: &mut [u8; STATE], memory: &[u8], out: &mut [u8]) -> usize
    requires { longest_text ≤ length out.old }
    ensures { Does (tick_made state.old memory.now) result state.new memory.now out.old out.new }
{
    let number = number_of(tick(state));
    put_numbered(number, b" -\n", out)
}

// tick
#[tactic(auto, unfolding(crate::specs::Meaning::tick_effect, crate::specs::Meaning::if_right))]
pub fn answer_tick(state: &mut [u8; STATE], memory: &[u8], line: &[u8], out: &mut [u8]) -> usize
    requires { longest_text ≤ length out.old }
    ensures { Does (tick_effect line.now state.old memory.now) result state.new memory.now out.old out.new }
{
    if line.len() != 4 {
        return answer_unknown(state, memory, out);
    }
    make_tick(state, memory, out)
}
