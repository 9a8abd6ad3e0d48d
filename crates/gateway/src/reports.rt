// A machine report, with the buffer for its notice and the one for the line that it may answer.
ghost use Rattle.std.specs.Prelude.{◌≡◌};
ghost use Rattle.rules.specs.Tests.{lent, no_report_room};
ghost use Rattle.rules.specs.Step.{report, report_step};
ghost use Rattle.service.specs.At.{report_away};
ghost use Rattle.state_bytes.specs.State.{state_of};
ghost use Rattle.gateway.specs.Called.{report_called, lent_on, finished, Did};

use crate::kept::keep;
use crate::lent::check_report_buffers_and_state;
use crate::part::start_of;
use format::Refusal;
use service::{check_report, report_for_process};
use state_bytes::read_process_at;

// What a report returns: its outcome, with the length of the notice, and the length of the line that it answers beside it.
#[derive(Clone, Copy)]
pub struct Told {
    pub outcome: Result<usize, Refusal>,
    pub line: usize,
}

impl Told {
    // Refused so; nothing is written.
    fn refused(refusal: Refusal) -> Told
        ensures { (result.outcome ≡ Err refusal) × (result.line ≡ 0) }
    {
        Told {
            outcome: Err(refusal),
            line: 0,
        }
    }
}

// A report about a process with a number under 8.
fn report_known(
    state: &mut [u8],
    memory: &mut [u8],
    pid: u8,
    kind: u8,
    reason: u16,
    words: [u16; 9],
    notice: &mut [u8],
    line: &mut [u8],
) -> Told
    requires line_value { lent_on state.old (no_report_room memory.old notice.old line.old) ≡ 0 }
    requires reason_value { report_away pid kind reason ≡ 0 }
    ensures { report_called result.outcome result.line state.new memory.new notice.new line.new ≡ finished state.old (report_step pid kind reason words notice.old line.old (lent (state_of state.old) memory.old)) }
{
    let index = pid as usize;
    let process = read_process_at(state, index);
    let start = start_of(process.there, index, state);
    let end = start + process.extent();
    let served = report_for_process(
        pid,
        kind,
        reason,
        words,
        process,
        &mut memory[start..end],
        notice,
        line,
    );
    keep(served.outcome, served.process, index, state);
    Told {
        outcome: served.outcome,
        line: served.line,
    }
}

// Answers any report: outcome, the length of the line, state, memory and both buffers are those of the rules.
pub fn report(
    state: &mut [u8],
    memory: &mut [u8],
    pid: u8,
    kind: u8,
    reason: u16,
    words: [u16; 9],
    notice: &mut [u8],
    line: &mut [u8],
) -> Told
    ensures { Did state.old memory.old (report pid kind reason words notice.old line.old) (report_called result.outcome result.line state.new memory.new notice.new line.new) }
{
    if let Err(refusal) = check_report_buffers_and_state(state, memory, notice, line) {
        return Told::refused(refusal);
    }
    if let Err(bad) = check_report(pid, kind, reason) {
        return Told::refused(bad);
    }
    report_known(state, memory, pid, kind, reason, words, notice, line)
}
