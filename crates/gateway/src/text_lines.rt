// A text line, with the buffer for the line that answers it.
ghost use Rattle.std.specs.Prelude.{◌≡◌, ◌<◌};
ghost use Rattle.rules.specs.Tests.{lent, no_line_room};
ghost use Rattle.rules.specs.Step.{text_line};
ghost use Rattle.state_bytes.specs.State.{state_of};
ghost use Rattle.gateway.specs.Stage.{line_step};
ghost use Rattle.gateway.specs.Called.{called, lent_on, finished, Did};

use crate::kept::keep;
use crate::lent::check_line_buffer_and_state;
use crate::part::start_of;
use fields::{Line, read_line};
use format::Refusal;
use state_bytes::read_process_at;
use text_door::{fail, line_for_process};

// A line that can be read, to a process with a number under 8.
fn line_known(
    line: Line,
    state: &mut [u8],
    memory: &mut [u8],
    out: &mut [u8],
) -> Result<usize, Refusal>
    requires pid_bound { line.pid < 8 }
    requires out_value { lent_on state.old (no_line_room memory.old out.old) ≡ 0 }
    ensures { called result state.new memory.new out.new ≡ finished state.old (line_step line out.old (lent (state_of state.old) memory.old)) }
{
    let index = line.pid as usize;
    let process = read_process_at(state, index);
    let start = start_of(process.there, index, state);
    let end = start + process.extent();
    let served = line_for_process(line, process, &mut memory[start..end], out);
    keep(served.outcome, served.process, index, state);
    served.outcome
}

// Answers any bytes as a text line: outcome, state, memory and line buffer are those of the rules.
pub fn text_line(
    state: &mut [u8],
    memory: &mut [u8],
    text: &[u8],
    out: &mut [u8],
) -> Result<usize, Refusal>
    ensures { Did state.old memory.old (text_line text.now out.old) (called result state.new memory.new out.new) }
{
    check_line_buffer_and_state(state, memory, out)?;
    let line = read_line(text);
    if !line.headed {
        return Err(Refusal::FORM);
    }
    if !line.whole {
        return fail(Refusal::TEXT_LINE, line, out);
    }
    if 8 <= line.pid {
        return fail(Refusal::TEXT_PROCESS, line, out);
    }
    line_known(line, state, memory, out)
}
