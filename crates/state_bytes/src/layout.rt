// How the processes lie in memory, by their sizes and starts.
ghost use Rattle.std.specs.Prelude.{◌≡◌, true, ◌*◌, ◌≤◌, ◌<◌, length};
ghost use Rattle.lists.specs.Every.{below};
ghost use Rattle.state.specs.Layout.{used, used_before, start_is_unique, placed, laid_out};
ghost use Rattle.state.specs.Sound.{records_sound};
ghost use Rattle.state_bytes.specs.Layout.{lies_at, in_number_order, extent_before, begins_at};
ghost use Rattle.state_bytes.specs.State.{state_of};
ghost use Rattle.state_bytes.specs.Widths.{process_count, process_width, state_width};

use crate::place::{is_there, read_extent_at};
use crate::process_form::read_extent;
use crate::starts::read_start;
use crate::widths::{PROCESS_BYTES, PROCESS_COUNT, STARTS_AT, STATE_BYTES, THERE_AT};
use state::CAPACITY;

// The sizes of the processes that are there, together: the index of the first free byte.
pub fn used_bytes(state: &[u8]) -> usize
    requires { state_width ≤ length state.now }
    ensures { result ≡ used (state_of state.now) }
{
    let mut used = 0;
    for at in (0..STARTS_AT).step_by(PROCESS_BYTES) {
        let end = at + PROCESS_BYTES;
        used += read_extent(&state[at..end]) as usize;
    }
    used
}

// ---- in number order

// Process p, whose record is at this index, is absent or begins at this start.
fn lies_at(state: &[u8; STATE_BYTES], at: usize, start: usize, p: usize) -> bool
    requires p_lt_process_count { p < process_count }
    requires at_value { at ≡ process_width * p }
    ensures { result ≡ lies_at (state_of state.now) start p }
{
    state[at + THERE_AT] % 2 == 0 || read_start(state, p) as usize == start
}

// Each process begins where those with lower numbers end, and the last ends within the memory.
fn in_number_order(state: &[u8; STATE_BYTES]) -> bool
    ensures { result ≡ in_number_order (state_of state.now) }
{
    let mut used = 0;
    // An index that runs beside p: a multiple of p would be a process number multiplied.
    let mut at = 0;
    for p in 0..PROCESS_COUNT {
        if !lies_at(state, at, used, p) {
            return false;
        }
        let end = at + PROCESS_BYTES;
        used += read_extent(&state[at..end]) as usize;
        at = end;
    }
    used <= CAPACITY
}

// ---- in any order

// The bytes of process q, if it begins before this index.
fn extent_before(state: &[u8; STATE_BYTES], start: u16, q: usize) -> u16
    requires q_lt_process_count { q < process_count }
    ensures { result ≡ extent_before (state_of state.now) start q }
{
    if read_start(state, q) < start {
        read_extent_at(state, q)
    } else {
        0
    }
}

// The sizes of the processes that begin before this index, together.
fn used_before(state: &[u8; STATE_BYTES], start: u16) -> usize
    ensures { result ≡ used_before start (state_of state.now) }
{
    let mut used = 0;
    for q in 0..PROCESS_COUNT {
        used += extent_before(state, start, q) as usize;
    }
    used
}

// Process q is there and begins at this index.
fn begins_at(state: &[u8; STATE_BYTES], start: u16, q: usize) -> bool
    requires q_lt_process_count { q < process_count }
    ensures { result ≡ begins_at (state_of state.now) start q }
{
    read_start(state, q) == start && is_there(state, q)
}

// No process with a lower number begins where p does.
fn start_is_unique(state: &[u8; STATE_BYTES], p: usize) -> bool
    requires p_lt_process_count { p < process_count }
    ensures { result ≡ start_is_unique (state_of state.now) p }
{
    let start = read_start(state, p);
    for q in 0..p {
        if begins_at(state, start, q) {
            return false;
        }
    }
    true
}

// Process p is absent, or begins where those before it end, and no other begins there.
fn is_placed(state: &[u8; STATE_BYTES], p: usize) -> bool
    requires p_lt_process_count { p < process_count }
    ensures { result ≡ placed (state_of state.now) p }
{
    let start = read_start(state, p);
    !is_there(state, p)
        || (used_before(state, start) == start as usize && start_is_unique(state, p))
}

// Every process is absent or begins where those before it end, and no two begin at one place.
fn each_placed(state: &[u8; STATE_BYTES]) -> bool
    ensures { result ≡ below (placed (state_of state.now)) process_count }
{
    for p in 0..PROCESS_COUNT {
        if !is_placed(state, p) {
            return false;
        }
    }
    true
}

// ---- both

// Whether the processes, whose records are sound, lie without gaps within the memory. In number order one look at each process tells.
pub(crate) fn layout_sound(state: &[u8; STATE_BYTES]) -> bool
    requires state_value { records_sound (state_of state.now) ≡ true }
    ensures { result ≡ laid_out (state_of state.now) }
{
    in_number_order(state) || (used_bytes(state) <= CAPACITY && each_placed(state))
}
