// Where each process begins in memory: the eight words after the processes in the bytes of a state.
ghost use Rattle.std.specs.Prelude.{◌≡◌, ◌+◌, ◌*◌, ◌≤◌, ◌<◌, length};
ghost use Rattle.state.specs.Records.{start_of};
ghost use Rattle.state.specs.Layout.{starts_without};
ghost use Rattle.state_bytes.specs.Layout.{start_lowered};
ghost use Rattle.state_bytes.specs.State.{state_of, with_start_bytes, with_starts_bytes};
ghost use Rattle.state_bytes.specs.Widths.{process_count, start_width, starts_at, state_width};

use crate::place::{is_there, read_extent_at};
use crate::widths::{PROCESS_COUNT, STARTS_AT};
use words::{high_byte, low_byte, word_of};

// The index of the first byte of process p's start.
fn start_at(p: usize) -> usize
    requires { p < process_count }
    ensures { result ≡ starts_at + start_width * p }
{
    STARTS_AT + p + p
}

// Where process p begins in memory.
pub fn read_start(state: &[u8], p: usize) -> u16
    requires p_lt_process_count { p < process_count }
    requires state_width_in_bounds { state_width ≤ length state.now }
    ensures { result ≡ start_of (state_of state.now) p }
{
    let at = start_at(p);
    word_of(state[at + 1], state[at])
}

// Writes where process p begins in memory.
pub fn put_start(start: u16, p: usize, state: &mut [u8])
    requires p_lt_process_count { p < process_count }
    requires state_len { length state.old ≡ state_width }
    ensures { state.new ≡ with_start_bytes p start state.old }
{
    let at = start_at(p);
    state[at] = low_byte(start);
    state[at + 1] = high_byte(start);
}

// Where process q begins once so many bytes are taken out at a start: one that lies above moves down.
fn start_lowered(state: &[u8], q: usize, start: u16, count: u16) -> u16
    requires q_lt_process_count { q < process_count }
    requires state_width_in_bounds { state_width ≤ length state.now }
    ensures { result ≡ start_lowered (state_of state.now) «start» «count» q }
{
    let own = read_start(state, q);
    if start < own && is_there(state, q) {
        own.saturating_sub(count)
    } else {
        own
    }
}

// Writes where each process begins once p is gone: those above it move down by its size, and it has no start. To be called while p's record is
// as it was.
pub fn put_starts_without(p: usize, state: &mut [u8])
    requires p_lt_process_count { p < process_count }
    requires state_len { length state.old ≡ state_width }
    ensures { state.new ≡ with_starts_bytes (starts_without p (state_of state.old)) state.old }
{
    let start = read_start(state, p);
    let count = read_extent_at(state, p);
    for q in 0..PROCESS_COUNT {
        let lowered = start_lowered(state, q, start, count);
        put_start(lowered, q, state);
    }
    put_start(0, p, state);
}
