// A packet of the Pup door, with the buffer for the words of its acknowledgement, and a tick of a tenth of a second. Both go to the process that a
// fresh start has set.
ghost use Rattle.std.specs.Prelude.{◌≡◌, true, false, List, [], ℕ, ◌<◌};
ghost use Rattle.process.specs.Packet.{ticked};
ghost use Rattle.packets.specs.Types.{too_few};
ghost use Rattle.rules.specs.Tests.{lent, no_ack_room};
ghost use Rattle.rules.specs.Step.{packet, tick};
ghost use Rattle.state.specs.Records.{process_at};
ghost use Rattle.state_bytes.specs.State.{state_of, door_of, state_sound, with_process_bytes};
ghost use Rattle.gateway.specs.Stage.{packet_step_at};
ghost use Rattle.gateway.specs.Called.{called, lent_on, finished, Did};

use crate::kept::keep;
use crate::lent::{check_ack_buffer_and_state, check_state_alone};
use crate::part::start_of;
use format::Refusal;
use packet_door::packet_for_process;
use packets::{is_known, too_few};
use state_bytes::{put_process_at, read_door, read_process_at};

// A packet that passed the tests 1 to 5, to a process with a number under 8.
fn packet_known(
    pid: usize,
    kind: u8,
    id: u32,
    words: &[u16],
    state: &mut [u8],
    memory: &mut [u8],
    out: &mut [u16],
) -> Result<usize, Refusal>
    requires pid_bound { (pid < 8) × (too_few kind words.now ≡ false) }
    requires out_value { lent_on state.old (no_ack_room memory.old out.old) ≡ 0 }
    ensures { called result state.new memory.new out.new ≡ finished state.old (packet_step_at pid kind id words.now out.old (lent (state_of state.old) memory.old)) }
{
    let process = read_process_at(state, pid);
    let start = start_of(process.there, pid, state);
    let end = start + process.extent();
    let served = packet_for_process(kind, id, words, process, &mut memory[start..end], out);
    keep(served.outcome, served.process, pid, state);
    served.outcome
}

// Answers any packet: its type, its ID and its data words; outcome, state, memory and the words of its acknowledgement are those of the rules. A Go is
// acknowledged without words, and a GoReply not at all: both are granted with the length 0.
pub fn packet(
    state: &mut [u8],
    memory: &mut [u8],
    kind: u8,
    id: u32,
    words: &[u16],
    out: &mut [u16],
) -> Result<usize, Refusal>
    ensures { Did state.old memory.old (packet (door_of state.old) kind id words.now out.old) (called result state.new memory.new out.new) }
{
    check_ack_buffer_and_state(state, memory, out)?;
    if too_few(kind, words) {
        return Err(Refusal::LENGTH);
    }
    if !is_known(kind) {
        return Err(Refusal::CODE);
    }
    let door = read_door(state) as usize;
    if 8 <= door {
        return Err(Refusal::PROCESS);
    }
    packet_known(door, kind, id, words, state, memory, out)
}

// A tenth of a second later for the Go of process pid, if one waits.
fn tick_at(pid: usize, state: &mut [u8])
    requires { (pid < 8) × (state_sound state.old ≡ true) }
    ensures { state.new ≡ with_process_bytes pid (ticked (process_at (state_of state.old) pid)) state.old }
{
    let process = read_process_at(state, pid);
    let next = process.tick();
    put_process_at(next, pid, state);
}

// A tick: outcome and state are those of the rules, whatever the memory holds, which a tick does not look at.
pub fn tick(state: &mut [u8]) -> Result<usize, Refusal>
    ensures { (memory : List ℕ) → Did state.old memory (tick (door_of state.old)) (called result state.new memory []) }
{
    check_state_alone(state)?;
    let door = read_door(state) as usize;
    if door < 8 {
        tick_at(door, state);
    }
    Ok(0)
}
