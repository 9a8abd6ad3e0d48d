// A request: any message, with the buffer for its reply.
ghost use Rattle.std.specs.Prelude.{◌≡◌, true, false, not, ◌||◌, List, ℕ, ◌+◌, ◌-◌, ◌≤◌, ◌<◌, length, ltb};
ghost use Rattle.format.specs.Layout.{string_of};
ghost use Rattle.message.specs.Incoming.{incoming, received};
ghost use Rattle.process.specs.Sizes.{memory_bytes};
ghost use Rattle.state.specs.Records.{lowest_absent};
ghost use Rattle.state.specs.Layout.{capacity, used};
ghost use Rattle.rules.specs.Rule.{names, creates, size_asked};
ghost use Rattle.rules.specs.Tests.{lent, no_room};
ghost use Rattle.rules.specs.Step.{request};
ghost use Rattle.state_bytes.specs.State.{state_of};
ghost use Rattle.gateway.specs.Stage.{asked};
ghost use Rattle.gateway.specs.Called.{called, lent_on, finished, Did};

use crate::gone::remove;
use crate::kept::keep;
use crate::lent::check_buffers_and_state;
use crate::part::start_of;
use format::{Header, Refusal, string};
use message::read_request;
use ops::{DESTROY, Form};
use service::{
    Target, answer_create, answer_for_process, changes, refuse, reply_plain, size_asked, target_of,
};
use state::CAPACITY;
use state_bytes::{lowest_absent, put_process_at, put_start, read_process_at, used_bytes};

// A request that names process pid.
fn answer_named(
    h: Header,
    pid: usize,
    state: &mut [u8],
    memory: &mut [u8],
    string: &[u8],
    reply: &mut [u8],
) -> Result<usize, Refusal>
    requires cmd_value { (names h.cmd ≡ true) × (pid ≡ h.pid) × (pid < 8) }
    requires reply_value { lent_on state.old (no_room memory.old reply.old) ≡ 0 }
    requires string_len_bound { length string.now ≤ h.arg2 }
    ensures { called result state.new memory.new reply.new ≡ finished state.old (asked h string.now reply.old (lent (state_of state.old) memory.old)) }
{
    let process = read_process_at(state, pid);
    let size = process.extent();
    let start = start_of(process.there, pid, state);
    let end = start + size;
    let served = answer_for_process(h, process, &mut memory[start..end], string, reply);
    if h.cmd == DESTROY {
        remove(
            served.outcome,
            served.process,
            pid,
            start,
            size,
            state,
            memory,
        );
        return served.outcome;
    }
    if changes(h.cmd) {
        keep(served.outcome, served.process, pid, state);
    }
    served.outcome
}

// 13: all numbers are taken, or the free bytes, those from start on, are fewer than the size.
pub(crate) fn no_place(pid: usize, start: usize, size: u16) -> bool
    requires { start ≤ capacity }
    ensures { result ≡ not (ltb pid 8) || ltb (capacity - start) size }
{
    8 <= pid || CAPACITY - start < size as usize
}

// CREATE of process pid, which has this size and the free bytes from start on.
fn create_last(
    h: Header,
    pid: usize,
    size: u16,
    start: usize,
    state: &mut [u8],
    memory: &mut [u8],
    reply: &mut [u8],
) -> Result<usize, Refusal>
    requires cmd_value { (names h.cmd ≡ false) × (creates h.cmd ≡ true) }
    requires reply_value { lent_on state.old (no_room memory.old reply.old) ≡ 0 }
    requires pid_value { (pid ≡ lowest_absent (state_of state.old)) × (size ≡ size_asked h) × (start ≡ used (state_of state.old)) }
    requires pid_bound { (pid < 8) × (size ≤ memory_bytes) × (start + size ≤ capacity) }
    ensures { (string : List ℕ) → called result state.new memory.new reply.new ≡ finished state.old (asked h string reply.old (lent (state_of state.old) memory.old)) }
{
    let process = read_process_at(state, pid);
    let end = start + size as usize;
    let served = answer_create(h, pid, size, process, &mut memory[start..end], reply);
    put_start(start as u16, pid, state);
    put_process_at(served.process, pid, state);
    served.outcome
}

// CREATE: the lowest absent process comes, after the last one, or it is refused with 13. A CREATE carries no string.
fn answer_new(
    h: Header,
    state: &mut [u8],
    memory: &mut [u8],
    reply: &mut [u8],
) -> Result<usize, Refusal>
    requires cmd_value { (names h.cmd ≡ false) × (creates h.cmd ≡ true) × (size_asked h ≤ memory_bytes) }
    requires reply_value { lent_on state.old (no_room memory.old reply.old) ≡ 0 }
    ensures { (string : List ℕ) → called result state.new memory.new reply.new ≡ finished state.old (asked h string reply.old (lent (state_of state.old) memory.old)) }
{
    let pid = lowest_absent(state);
    let start = used_bytes(state);
    let size = size_asked(h);
    if no_place(pid, start, size) {
        return refuse(h, Refusal::PLACE, reply);
    }
    create_last(h, pid, size, start, state, memory, reply)
}

// A message that was read as a request of this form.
fn answer(
    h: Header,
    form: Form,
    state: &mut [u8],
    memory: &mut [u8],
    message: &[u8],
    reply: &mut [u8],
) -> Result<usize, Refusal>
    requires form_value { incoming 0 h form ≡ received message.now }
    requires reply_value { lent_on state.old (no_room memory.old reply.old) ≡ 0 }
    ensures { called result state.new memory.new reply.new ≡ finished state.old (asked h (string_of message.now) reply.old (lent (state_of state.old) memory.old)) }
{
    match target_of(form, h) {
        Target::Named(pid) => answer_named(h, pid, state, memory, string(message), reply),
        Target::OutOfRange => refuse(h, Refusal::PROCESS, reply),
        Target::New => answer_new(h, state, memory, reply),
        Target::Nowhere => reply_plain(h, reply),
    }
}

// Answers any bytes: outcome, state, memory and reply buffer are those of the rules.
pub fn request(
    state: &mut [u8],
    memory: &mut [u8],
    message: &[u8],
    reply: &mut [u8],
) -> Result<usize, Refusal>
    ensures { Did state.old memory.old (request message.now reply.old) (called result state.new memory.new reply.new) }
{
    check_buffers_and_state(state, memory, reply)?;
    let (h, form) = read_request(message)?;
    answer(h, form, state, memory, message, reply)
}
