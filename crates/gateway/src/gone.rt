// A process that goes.
ghost use Rattle.std.specs.Prelude.{◌≡◌, true, cond, [], ◌<◌, length};
ghost use Rattle.process.specs.Local.{local};
ghost use Rattle.state.specs.Records.{process_at, start_of};
ghost use Rattle.state.specs.Layout.{capacity, extent_at};
ghost use Rattle.rules.specs.Tests.{lent};
ghost use Rattle.rules.specs.Window.{taken_out};
ghost use Rattle.rules.specs.Isolation.{is_granted};
ghost use Rattle.state_bytes.specs.State.{state_bytes, state_of, door_of, state_sound};

use format::Refusal;
use process::Process;
use state::close;
use state_bytes::{put_process_at, put_starts_without, used_bytes};

// Takes process pid out, whose count bytes begin at start: the bytes of those above it move down, and then their starts, and its record is
// written, which is that of an absent one. How many bytes are used is asked while it is still there.
fn take_out(
    process: Process,
    pid: usize,
    start: usize,
    count: usize,
    state: &mut [u8],
    memory: &mut [u8],
)
    requires pid_bound { (pid < 8) × ((process_at (state_of state.old) pid).there ≡ true) }
    requires start_value { (start ≡ start_of (state_of state.old) pid) × (count ≡ extent_at (state_of state.old) pid) }
    requires state_value { (state_sound state.old ≡ true) × (length memory.old ≡ capacity) }
    ensures state_after { state.new ≡ state_bytes (door_of state.old) (taken_out pid (local «process» []) (lent (state_of state.old) memory.old)).records }
    ensures memory_after { memory.new ≡ (taken_out pid (local «process» []) (lent (state_of state.old) memory.old)).memory }
{
    let end = used_bytes(state);
    close(memory, start, count, end);
    put_starts_without(pid, state);
    put_process_at(process, pid, state);
}

// Takes process pid out, if the call was granted.
pub(crate) fn remove(
    outcome: Result<usize, Refusal>,
    process: Process,
    pid: usize,
    start: usize,
    count: usize,
    state: &mut [u8],
    memory: &mut [u8],
)
    requires pid_value { (is_granted outcome ≡ true → (process_at (state_of state.old) pid).there ≡ true) × (pid < 8) }
    requires start_value { (is_granted outcome ≡ true → start ≡ start_of (state_of state.old) pid) × (count ≡ extent_at (state_of state.old) pid) }
    requires state_value { (state_sound state.old ≡ true) × (length memory.old ≡ capacity) }
    ensures state_after { state.new ≡ cond (is_granted outcome) (state_bytes (door_of state.old) (taken_out pid (local «process» []) (lent (state_of state.old) memory.old)).records) state.old }
    ensures memory_after { memory.new ≡ cond (is_granted outcome) (taken_out pid (local «process» []) (lent (state_of state.old) memory.old)).memory memory.old }
{
    if let Ok(_) = outcome {
        take_out(process, pid, start, count, state, memory);
    }
}
