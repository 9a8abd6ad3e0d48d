// The lines that change nothing.
ghost use Rattle.std.specs.Prelude.{◌≡◌, ◌+◌, ◌≤◌, ◌<◌, length};
ghost use Rattle.lines.specs.Hex.{pairs_line};
ghost use Rattle.process.specs.Sizes.{memory_bytes};
ghost use Rattle.state.specs.Records.{start_of};
ghost use Rattle.state.specs.Layout.{slot};
ghost use Rattle.state_bytes.specs.State.{state_of};
ghost use Rattle.calls.specs.Effect.{longest_text, memory_size, Prints, Does};
ghost use Rattle.calls.specs.Meaning.{unknown_effect, ends_within, memory_effect, whole_memory_effect, process_effect};

use crate::{MEMORY, STATE};
use decimal::Number;
use display::put_process;
use lines::{at_most, put, put_pairs};
use process::MEMORY_BYTES;
use state_bytes::{read_extent_at, read_process_at, read_start};

// No more bytes of the one memory are shown at once.
const LONGEST_WHOLE: usize = 256;

// A line that is no call.
pub fn answer_unknown(state: &[u8], memory: &[u8], out: &mut [u8]) -> usize
    requires { longest_text ≤ length out.old }
    ensures { Does (unknown_effect state.now memory.now) result state.now memory.now out.old out.new }
{
    put(b"?\n", 0, out)
}

// Whether a line ends after this number, and the bytes that it names end at this address, at most here.
#[tactic(auto, unfolding(crate::specs::Meaning::ends_within))]
pub(crate) fn ends_within(number: Number, line: &[u8], end: usize, most: usize) -> bool
    ensures { result ≡ ends_within line.now number end most }
{
    number.ends(line) && end <= most
}

// Where in memory the byte of process p with this address lies.
pub(crate) fn place(state: &[u8; STATE], p: usize, address: usize) -> usize
    requires p_bound { p < 8 }
    requires address_le_memory_bytes { address ≤ memory_bytes }
    ensures { result ≡ start_of (state_of state.now) p + address }
{
    read_start(state, p) as usize + address
}

// Puts so many bytes of memory from an index on, as far as it reaches, as a line.
fn put_slot(from: usize, count: usize, memory: &[u8], out: &mut [u8]) -> usize
    requires count_le_memory_bytes { count ≤ memory_bytes }
    requires memory_len { length memory.now ≡ memory_size }
    requires longest_text_in_bounds { longest_text ≤ length out.old }
    ensures { Prints (pairs_line (slot from count memory.now)) result out.old out.new }
{
    let start = at_most(from, memory);
    let end = at_most(start + count, memory);
    put_pairs(&memory[start..end], out)
}

// memory P ADDRESS COUNT
pub fn answer_memory(state: &[u8; STATE], memory: &[u8], line: &[u8], out: &mut [u8]) -> usize
    requires memory_len { length memory.now ≡ memory_size }
    requires longest_text_in_bounds { longest_text ≤ length out.old }
    ensures { Does (memory_effect line.now state.now memory.now) result state.now memory.now out.old out.new }
{
    let process = Number::start(6).then(line, 7);
    let address = process.then(line, MEMORY_BYTES);
    let count = address.then(line, MEMORY_BYTES);
    let size = read_extent_at(state, process.value) as usize;
    if !ends_within(count, line, address.value + count.value, size) {
        return answer_unknown(state, memory, out);
    }
    let from = place(state, process.value, address.value);
    put_slot(from, count.value, memory, out)
}

// whole ADDRESS COUNT
pub fn answer_whole(state: &[u8], memory: &[u8], line: &[u8], out: &mut [u8]) -> usize
    requires memory_len { length memory.now ≡ memory_size }
    requires longest_text_in_bounds { longest_text ≤ length out.old }
    ensures { Does (whole_memory_effect line.now state.now memory.now) result state.now memory.now out.old out.new }
{
    let address = Number::start(5).then(line, MEMORY);
    let count = address.then(line, LONGEST_WHOLE);
    if !ends_within(count, line, address.value + count.value, MEMORY) {
        return answer_unknown(state, memory, out);
    }
    put_slot(address.value, count.value, memory, out)
}

// process P
pub fn answer_process(state: &[u8; STATE], memory: &[u8], line: &[u8], out: &mut [u8]) -> usize
    requires { longest_text ≤ length out.old }
    ensures { Does (process_effect line.now state.now memory.now) result state.now memory.now out.old out.new }
{
    let process = Number::start(7).then(line, 7);
    if !process.ends(line) {
        return answer_unknown(state, memory, out);
    }
    let p = read_process_at(state, process.value);
    let start = read_start(state, process.value);
    put_process(p, start, out)
}
