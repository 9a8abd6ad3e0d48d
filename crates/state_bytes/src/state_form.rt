// The bytes of a whole state.
ghost use Rattle.std.specs.Prelude.{◌≡◌, true, cond, length};
ghost use Rattle.lists.specs.Buffer.{overlay};
ghost use Rattle.lists.specs.Joined.{joined};
ghost use Rattle.state.specs.Fresh.{fresh_process, fresh_processes, fresh_starts, fresh_start, sizes_right};
ghost use Rattle.state_bytes.specs.Process.{process_bytes};
ghost use Rattle.state_bytes.specs.State.{state_bytes, with_starts_bytes};
ghost use Rattle.state_bytes.specs.Widths.{starts_at, state_width};

use crate::process_form::put_process;
use crate::starts::put_start;
use crate::widths::{DOOR_AT, PROCESS_BYTES, PROCESS_COUNT};
use process::Process;
use run_state::Run;
use state::size_of;

// The record of a process at a fresh start: running with its size if it is there, cleared otherwise.
fn fresh_process(there: bool, size: u16) -> Process
    ensures { result ≡ fresh_process there size }
{
    if there {
        Process::fresh(true, 0, Run::Running, size)
    } else {
        Process::cleared()
    }
}

// Writes the records at a fresh start.
fn put_fresh_processes(there: [bool; 8], sizes: [u16; 8], state: &mut [u8])
    requires { length state.old ≡ state_width }
    ensures sizes_len { length (joined process_bytes (fresh_processes there sizes)) ≡ starts_at }
    ensures state_after { state.new ≡ overlay (joined process_bytes (fresh_processes there sizes)) state.old }
{
    // An index that runs beside p: a multiple of p would be a process number multiplied.
    let mut at = 0;
    for p in 0..PROCESS_COUNT {
        put_process(fresh_process(there[p], size_of(sizes, p)), &mut state[at..]);
        at += PROCESS_BYTES;
    }
}

// The start or the size of a process that is there, and 0 of an absent one.
fn if_there(there: bool, number: u16) -> u16
    ensures { result ≡ cond there «number» 0 }
{
    if there { number } else { 0 }
}

// Writes where each process begins at a fresh start: in number order, each where the one before it ends.
fn put_fresh_starts(there: [bool; 8], sizes: [u16; 8], state: &mut [u8])
    requires sizes_value { sizes_right there sizes ≡ true }
    requires state_len { length state.old ≡ state_width }
    ensures { state.new ≡ with_starts_bytes (fresh_starts 0 there sizes) state.old }
{
    let mut start = 0;
    for p in 0..PROCESS_COUNT {
        put_start(if_there(there[p], start), p, state);
        start += if_there(there[p], size_of(sizes, p));
    }
}

// Writes the state at a fresh start with the given processes there, each with its size, and the process of the Pup door.
pub fn put_fresh_start(there: [bool; 8], sizes: [u16; 8], door: u8, state: &mut [u8])
    requires sizes_value { sizes_right there sizes ≡ true }
    requires state_len { length state.old ≡ state_width }
    ensures { state.new ≡ state_bytes door (fresh_start there sizes) }
{
    put_fresh_processes(there, sizes, state);
    put_fresh_starts(there, sizes, state);
    state[DOOR_AT] = door;
}
