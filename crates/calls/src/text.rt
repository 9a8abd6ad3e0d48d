// Text lines, and the text line that answers a call.
ghost use Rattle.std.specs.Prelude.{◌≡◌, [], ◌∷◌, ◌++◌, ◌+◌, ◌≤◌, length, take};
ghost use Rattle.lines.specs.declared.scan.Phase.TheVariants.{Open};
ghost use Rattle.lines.specs.Scan.{bytes_of, Put};
ghost use Rattle.calls.specs.Effect.{longest_text, line_size, Prints, Does};
ghost use Rattle.calls.specs.Shown.{text_shown, mark_of, beside_notice};
ghost use Rattle.calls.specs.Meaning.{zero_line, text_made, text_effect, raw_effect};

use crate::show::answer_unknown;
use crate::{LINE, LINE_KEPT, MEMORY, STATE};
use decimal::put_number;
use format::number_of;
use gateway::{line_length, text_line};
use lines::{Phase, Scan, at_most, put};

// How the text line that answers a call is shown.
#[derive(Clone, Copy)]
pub enum Shown {
    // As in a recording: after the number of the call, or after a bar and beside the notice of a report.
    Recorded,
    // As it is, on a line of its own.
    Alone,
}

// The buffer that is lent to a call for a text line.
#[tactic(auto, unfolding(crate::specs::Meaning::zero_line))]
pub(crate) fn zero_line() -> [u8; LINE]
    ensures { result ≡ zero_line }
{
    [0u8; LINE]
}

// What stands before a line that a report answers, from an index on; the index after it.
#[tactic(auto, unfolding(crate::specs::Shown::mark_of))]
fn put_between(shown: Shown, at: usize, out: &mut [u8]) -> usize
    requires { at + 3 ≤ length out.old }
    ensures put { Put at (mark_of shown) out.old result out.new }
    ensures upper_bound { result ≤ at + 3 }
{
    match shown {
        Shown::Recorded => put(b" | ", at, out),
        Shown::Alone => put(b"\n", at, out),
    }
}

// What follows the notice of a report, from an index on: the line that it answers, or none; the index after it.
pub(crate) fn put_beside(shown: Shown, line: &[u8], at: usize, out: &mut [u8]) -> usize
    requires { at + 3 + length line.now ≤ length out.old }
    ensures { Put at (beside_notice shown line.now) out.old result out.new }
{
    if line.is_empty() {
        return put(b"\n", at, out);
    }
    let next = put_between(shown, at, out);
    put(line, next, out)
}

// The number of a call and the line that answers it, or a dash where there is none.
fn put_recorded(number: u8, line: &[u8], out: &mut [u8]) -> usize
    requires { 8 + length line.now ≤ length out.old }
    ensures { Put 0 (text_shown Shown.Recorded number line.now) out.old result out.new }
{
    let at = put_number(number as u16, 0, out);
    if line.is_empty() {
        return put(b" -\n", at, out);
    }
    let next = put(b" ", at, out);
    put(line, next, out)
}

// What answers a text line; its length.
#[tactic(auto, unfolding(crate::specs::Shown::text_shown))]
fn put_text(shown: Shown, number: u8, line: &[u8], out: &mut [u8]) -> usize
    requires { 8 + length line.now ≤ length out.old }
    ensures { Put 0 (text_shown shown number line.now) out.old result out.new }
{
    match shown {
        Shown::Recorded => put_recorded(number, line, out),
        Shown::Alone => put(line, 0, out),
    }
}

// Hands over a text line, and puts what answers it.
fn make_text(
    shown: Shown,
    state: &mut [u8; STATE],
    memory: &mut [u8; MEMORY],
    text: &[u8],
    out: &mut [u8],
) -> usize
    requires { longest_text ≤ length out.old }
    ensures { Does (text_made shown text.now state.old memory.old) result state.new memory.new out.old out.new }
{
    let mut line = zero_line();
    let outcome = text_line(state, memory, text, &mut line);
    let n = at_most(line_length(outcome, &line), &line);
    put_text(shown, number_of(outcome), &line[..n], out)
}

// The first bytes of a text, as many as the longest line has, and a newline; how many bytes that is.
fn put_ended(text: &[u8], line: &mut [u8]) -> usize
    requires { line_size + 1 ≤ length line.old }
    ensures { Prints (take line_size text.now ++ (10 ∷ [])) result line.old line.new }
{
    let n = at_most(LINE, text);
    let at = put(&text[..n], 0, line);
    put(b"\n", at, line)
}

// line TEXT: a newline is added to the text. A longer one than the longest line is answered like its first bytes.
pub fn answer_text(
    shown: Shown,
    state: &mut [u8; STATE],
    memory: &mut [u8; MEMORY],
    text: &[u8],
    out: &mut [u8],
) -> usize
    requires { longest_text ≤ length out.old }
    ensures { Does (text_effect shown text.now state.old memory.old) result state.new memory.new out.old out.new }
{
    let mut line = [0u8; LINE_KEPT];
    let n = at_most(put_ended(text, &mut line), &line);
    make_text(shown, state, memory, &line[..n], out)
}

// raw HEX HEX ..: all of its pairs led to this phase, and these are its first ones, more than the longest line has or all.
pub fn answer_raw(
    phase: Phase,
    state: &mut [u8; STATE],
    memory: &mut [u8; MEMORY],
    pairs: &[u8],
    out: &mut [u8],
) -> usize
    requires { longest_text ≤ length out.old }
    ensures { Does (raw_effect phase (bytes_of Open pairs.now) state.old memory.old) result state.new memory.new out.old out.new }
{
    if !phase.is_full() {
        return answer_unknown(state, memory, out);
    }
    let mut text = [0u8; LINE_KEPT];
    let scan = Scan::new().part(pairs, &mut text);
    let n = at_most(scan.len, &text);
    make_text(Shown::Recorded, state, memory, &text[..n], out)
}
