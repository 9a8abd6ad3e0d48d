// A block of text, whose lines are carried out one after another.
ghost use Rattle.std.specs.Prelude.{◌≡◌, false, [], ◌≤◌, length};
ghost use Rattle.calls.specs.Effect.{longest_text, Does};
ghost use Rattle.recording.specs.Line.{pairs_from, line_effect};
ghost use Rattle.recording.specs.Session.{reading, session, waits, stepped, fed, Steps, Feeds};

use crate::KEPT;
use crate::language::{BEGUN, Language};
use crate::line::answer_line;
use crate::partial::Partial;
use calls::{LONGEST_TEXT, MEMORY, STATE};
use lines::at_most;

// What was read of the line after one character, and how many bytes of text were put.
#[derive(Clone, Copy)]
pub struct Step {
    pub partial: Partial,
    pub len: usize,
}

// What was read of the line after a block; how much of the block was used; and how many bytes of text were put, in a buffer that the caller lends.
#[derive(Clone, Copy)]
pub struct Fed {
    pub partial: Partial,
    pub used: usize,
    pub len: usize,
}

// Carries out the line that has ended.
fn end_line(
    language: Language,
    partial: Partial,
    state: &mut [u8; STATE],
    memory: &mut [u8; MEMORY],
    line: &[u8],
    out: &mut [u8],
) -> usize
    requires { longest_text ≤ length out.old }
    ensures { Does (line_effect language partial.phase partial.size (reading partial line.now).line state.old memory.old) result state.new memory.new out.old out.new }
{
    let n = at_most(partial.len, line);
    answer_line(
        language,
        partial.phase,
        partial.size,
        state,
        memory,
        &line[..n],
        out,
    )
}

// Where the pairs begin of a line of which so much was read.
fn pairs_begin(language: Language, partial: Partial, line: &[u8]) -> usize
    ensures { result ≡ pairs_from language (reading partial line.now).line }
{
    let n = at_most(partial.len, line);
    language.pairs_from(&line[..n])
}

// Whether a character has to wait until there is room for the text of a line.
#[tactic(auto, unfolding(crate::specs::Session::waits))]
fn must_wait(c: u8, room: usize) -> bool
    ensures { result ≡ waits c room }
{
    c == b'\n' && room < LONGEST_TEXT
}

// One character: a newline ends the line, which is then carried out. Where the pairs of a line begin is asked of its first bytes alone, after which they
// have begun in each language.
fn read_character(
    language: Language,
    partial: Partial,
    c: u8,
    state: &mut [u8; STATE],
    memory: &mut [u8; MEMORY],
    line: &mut [u8; KEPT],
    out: &mut [u8],
) -> Step
    requires { waits c (length out.old) ≡ false }
    ensures { Steps (stepped language c (session (reading partial line.old) state.old memory.old)) result line.new state.new memory.new out.old out.new }
{
    if c != b'\n' {
        let first = if partial.len < BEGUN {
            pairs_begin(language, partial, line)
        } else {
            0
        };
        return Step {
            partial: partial.push(first, c, line),
            len: 0,
        };
    }
    let len = end_line(language, partial, state, memory, line, out);
    Step {
        partial: Partial::new(),
        len,
    }
}

// Feeds a block of text, which may begin and end within a line. Stops before the end of a line whose text might not fit: the rest of the
// block is to be fed again, with room.
pub fn feed(
    language: Language,
    partial: Partial,
    state: &mut [u8; STATE],
    memory: &mut [u8; MEMORY],
    line: &mut [u8; KEPT],
    block: &[u8],
    out: &mut [u8],
) -> Fed
    ensures { Feeds (fed language (length out.old) (session (reading partial line.old) state.old memory.old) [] block.now) result block.now line.new state.new memory.new out.old out.new }
{
    let mut now = partial;
    let mut len = 0;
    for at in 0..block.len() {
        if must_wait(block[at], out.len() - len) {
            return Fed {
                partial: now,
                used: at,
                len,
            };
        }
        let step = read_character(
            language,
            now,
            block[at],
            state,
            memory,
            line,
            &mut out[len..],
        );
        now = step.partial;
        len += step.len;
    }
    Fed {
        partial: now,
        used: block.len(),
        len,
    }
}
