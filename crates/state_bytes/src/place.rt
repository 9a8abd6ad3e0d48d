// One process of the bytes of a state, read and written where it lies. A state is a slice here, and a process a number: C lends the one, and
// messages carry the other.
ghost use Rattle.std.specs.Prelude.{◌≡◌, ◌*◌, ◌≤◌, ◌<◌, length};
ghost use Rattle.state.specs.Records.{process_at, lowest_absent};
ghost use Rattle.state.specs.Layout.{extent_at};
ghost use Rattle.state_bytes.specs.State.{state_of, with_process_bytes};
ghost use Rattle.state_bytes.specs.Widths.{process_count, process_width, state_width};

use crate::process_form::{put_process, read_extent, read_process};
use crate::widths::{PROCESS_BYTES, PROCESS_COUNT, RECORD_AT_HIGH, RECORD_AT_LOW, THERE_AT};
use process::Process;
use words::word_of;

// The index of the first byte of process p's record, from the tables.
pub(crate) fn record_at(p: usize) -> usize
    requires { p < process_count }
    ensures { result ≡ process_width * p }
{
    word_of(RECORD_AT_HIGH[p], RECORD_AT_LOW[p]) as usize
}

// Process p of the state that these bytes are the form of.
pub fn read_process_at(state: &[u8], p: usize) -> Process
    requires p_lt_process_count { p < process_count }
    requires state_width_in_bounds { state_width ≤ length state.now }
    ensures { result ≡ process_at (state_of state.now) p }
{
    let at = record_at(p);
    let end = at + PROCESS_BYTES;
    read_process(&state[at..end])
}

// Whether process p is there.
pub(crate) fn is_there(state: &[u8], p: usize) -> bool
    requires p_lt_process_count { p < process_count }
    requires state_width_in_bounds { state_width ≤ length state.now }
    ensures { result ≡ (process_at (state_of state.now) p).there }
{
    let at = record_at(p) + THERE_AT;
    state[at] % 2 == 1
}

// How many bytes of memory process p has: its size, or none where it is absent.
pub fn read_extent_at(state: &[u8], p: usize) -> u16
    requires p_lt_process_count { p < process_count }
    requires state_width_in_bounds { state_width ≤ length state.now }
    ensures { result ≡ extent_at (state_of state.now) p }
{
    let at = record_at(p);
    let end = at + PROCESS_BYTES;
    read_extent(&state[at..end])
}

// Writes this record over the bytes of process p.
pub fn put_process_at(q: Process, p: usize, state: &mut [u8])
    requires p_lt_process_count { p < process_count }
    requires state_len { length state.old ≡ state_width }
    ensures { state.new ≡ with_process_bytes p q state.old }
{
    let at = record_at(p);
    let end = at + PROCESS_BYTES;
    put_process(q, &mut state[at..end]);
}

// The lowest number of a process that is not there, or 8.
pub fn lowest_absent(state: &[u8]) -> usize
    requires { state_width ≤ length state.now }
    ensures { result ≡ lowest_absent (state_of state.now) }
{
    // An index that runs beside p: a multiple of p would be a process number multiplied.
    let mut there = THERE_AT;
    for p in 0..PROCESS_COUNT {
        if state[there] % 2 == 0 {
            return p;
        }
        there += PROCESS_BYTES;
    }
    PROCESS_COUNT
}
