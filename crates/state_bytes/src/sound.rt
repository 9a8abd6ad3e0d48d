// Whether bytes are the form of a sound state. A process that has no breakpoints has eight zero entries: then its head tells, and no record
// is read.
ghost use Rattle.std.specs.Prelude.{◌≡◌, ◌≤◌, length};
ghost use Rattle.state_bytes.specs.Process.{process_plain, process_sound};
ghost use Rattle.state_bytes.specs.State.{SoundBefore, state_sound};
ghost use Rattle.state_bytes.specs.Widths.{process_width};

use crate::entry::{entries_bits, flags_formed};
use crate::layout::layout_sound;
use crate::process_form::{head_sound, read_process};
use crate::widths::{ENTRIES_AT, NUMBER_AT, PROCESS_BYTES, STARTS_AT, STATE_BYTES};

// A process with a sound head, no breakpoints, and that number of them.
fn process_plain(bytes: &[u8]) -> bool
    requires { process_width ≤ length bytes.now }
    ensures { result ≡ process_plain bytes.now }
{
    head_sound(bytes) && entries_bits(&bytes[ENTRIES_AT..]) == 0 && bytes[NUMBER_AT] == 0
}

// The index of the first process that is not plain, or that after the last. No slow path stands in this loop.
fn plain_before(state: &[u8; STATE_BYTES]) -> usize
    ensures { SoundBefore result state.now }
{
    for at in (0..STARTS_AT).step_by(PROCESS_BYTES) {
        let end = at + PROCESS_BYTES;
        if !process_plain(&state[at..end]) {
            return at;
        }
    }
    STARTS_AT
}

// The bytes of a process are those of a sound record.
fn process_sound(bytes: &[u8]) -> bool
    requires { process_width ≤ length bytes.now }
    ensures { result ≡ process_sound bytes.now }
{
    if !head_sound(bytes) {
        return false;
    }
    let bits = entries_bits(&bytes[ENTRIES_AT..]);
    if bits == 0 {
        bytes[NUMBER_AT] == 0
    } else {
        flags_formed(bits) && read_process(bytes).sound()
    }
}

// Whether these bytes are the form of a sound state.
pub fn state_sound(state: &[u8]) -> bool
    ensures { result ≡ state_sound state.now }
{
    let Some(whole) = state.as_array::<STATE_BYTES>() else {
        return false;
    };
    for next in (plain_before(whole)..STARTS_AT).step_by(PROCESS_BYTES) {
        let end = next + PROCESS_BYTES;
        if !process_sound(&whole[next..end]) {
            return false;
        }
    }
    layout_sound(whole)
}
