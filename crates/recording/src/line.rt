// The answer to one line.
ghost use Rattle.std.specs.Prelude.{◌≡◌, ◌≤◌, length};
ghost use Rattle.calls.specs.Effect.{longest_text, Does};
ghost use Rattle.recording.specs.Line.{pairs_in, command_effect, line_effect};

use crate::command::{Command, begins, command_of};
use crate::language::Language;
use calls::{
    MEMORY, STATE, Shown, answer_memory, answer_packet, answer_process, answer_raw, answer_report,
    answer_request, answer_start, answer_store, answer_text, answer_tick, answer_unknown,
    answer_whole, answer_why,
};
use lines::{Phase, at_most};

// How many pairs a line of so many characters has after `why `.
#[tactic(auto, unfolding(crate::specs::Line::pairs_in))]
fn pairs_in(size: usize) -> usize
    ensures { result ≡ pairs_in size }
{
    size.saturating_sub(3) / 3
}

// Carries out a line of a recording by its word.
fn answer_command(
    shown: Shown,
    command: Command,
    phase: Phase,
    size: usize,
    state: &mut [u8; STATE],
    memory: &mut [u8; MEMORY],
    line: &[u8],
    out: &mut [u8],
) -> usize
    requires { longest_text ≤ length out.old }
    ensures { Does (command_effect shown phase size line.now state.old memory.old command) result state.new memory.new out.old out.new }
{
    let request = at_most(8, line);
    let text = at_most(5, line);
    let short = at_most(4, line);
    match command {
        Command::Start => answer_start(state, memory, line, out),
        Command::Request => answer_request(phase, state, memory, &line[request..], out),
        Command::Report => answer_report(shown, state, memory, line, out),
        Command::Store => answer_store(state, memory, line, out),
        Command::Memory => answer_memory(state, memory, line, out),
        Command::Whole => answer_whole(state, memory, line, out),
        Command::Process => answer_process(state, memory, line, out),
        Command::Packet => answer_packet(state, memory, line, out),
        Command::Tick => answer_tick(state, memory, line, out),
        Command::Text => answer_text(Shown::Recorded, state, memory, &line[text..], out),
        Command::Raw => answer_raw(phase, state, memory, &line[short..], out),
        Command::Why => answer_why(phase, pairs_in(size), state, memory, &line[short..], out),
        Command::Unknown => answer_unknown(state, memory, out),
    }
}

// Carries out a line of the text door: a text line, or one of a recording.
fn answer_at_door(
    phase: Phase,
    size: usize,
    state: &mut [u8; STATE],
    memory: &mut [u8; MEMORY],
    line: &[u8],
    out: &mut [u8],
) -> usize
    requires { longest_text ≤ length out.old }
    ensures { Does (line_effect Language.TextDoor phase size line.now state.old memory.old) result state.new memory.new out.old out.new }
{
    if begins(line, b"0x") {
        return answer_text(Shown::Alone, state, memory, line, out);
    }
    answer_command(
        Shown::Alone,
        command_of(line),
        phase,
        size,
        state,
        memory,
        line,
        out,
    )
}

// Carries out a line; phase is where its pairs led, and size how many characters it has, both of which may go on after what is kept.
pub(crate) fn answer_line(
    language: Language,
    phase: Phase,
    size: usize,
    state: &mut [u8; STATE],
    memory: &mut [u8; MEMORY],
    line: &[u8],
    out: &mut [u8],
) -> usize
    requires { longest_text ≤ length out.old }
    ensures { Does (line_effect language phase size line.now state.old memory.old) result state.new memory.new out.old out.new }
{
    match language {
        Language::Bench => answer_request(phase, state, memory, line, out),
        Language::Recording => answer_command(
            Shown::Recorded,
            command_of(line),
            phase,
            size,
            state,
            memory,
            line,
            out,
        ),
        Language::TextDoor => answer_at_door(phase, size, state, memory, line, out),
    }
}
