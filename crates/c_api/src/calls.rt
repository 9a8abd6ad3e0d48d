// The exported functions of the gateway's end. Numbers come in as wide as C has them, so that none is cut on the way.
ghost use Rattle.std.specs.Prelude.{◌≡◌, List, [], ℕ, ◌≤◌, length};
ghost use Rattle.lists.specs.Word.{vector_of};
ghost use Rattle.rules.specs.Step.{request, text_line, tick};
ghost use Rattle.state_bytes.specs.State.{door_of};
ghost use Rattle.gateway.specs.Called.{call_on};
ghost use Rattle.c_api.specs.Called.{Returns, Reports, Starts, start_with, start_number, report_on, packet_on, why_with, bits_of};

use crate::narrow::{byte_of, kind_of, type_of};
use crate::result::{both_lengths, minus, signed};
use format::Refusal;
use gateway::{fresh_start, packet, report, request, sizes_right, text_line, tick, why};
use state_bytes::STATE_BYTES;
use words::vector_of;

fn bits(there: u64) -> [bool; 8]
    ensures { result ≡ bits_of there }
{
    [
        there % 2 == 1,
        there / 2 % 2 == 1,
        there / 4 % 2 == 1,
        there / 8 % 2 == 1,
        there / 16 % 2 == 1,
        there / 32 % 2 == 1,
        there / 64 % 2 == 1,
        there / 128 % 2 == 1,
    ]
}

// The eight sizes.
fn eight(sizes: &[u16]) -> [u16; 8]
    requires { length sizes.now ≡ 8 }
    ensures { result ≡ sizes.now }
{
    [
        sizes[0], sizes[1], sizes[2], sizes[3], sizes[4], sizes[5], sizes[6], sizes[7],
    ]
}

// The refusal of a fresh start with a process over 7.
fn start_refusal(there: u64, sizes: &[u16], state: &[u8]) -> Refusal
    requires le_there { 256 ≤ there }
    requires sizes_len { length sizes.now ≡ 8 }
    ensures { result.0 ≡ start_number there sizes.now state.now }
{
    if state.len() != STATE_BYTES {
        return Refusal::LENT;
    }
    if sizes_right(bits(there), eight(sizes)) {
        Refusal::PROCESS
    } else {
        Refusal::STATE
    }
}

// A fresh start with the processes whose bits are set, each with its size, and the process of the Pup door.
#[unsafe(no_mangle)]
pub extern "C" fn palustrode_fresh_start(
    there: u64,
    sizes: &[u16],
    door: u64,
    state: &mut [u8],
) -> i64
    ensures { Starts (start_with there sizes.now door state.old) result state.new }
{
    if sizes.len() != 8 {
        return minus(1);
    }
    if 256 <= there {
        return minus(start_refusal(there, sizes, state).0);
    }
    let outcome = fresh_start(bits(there), eight(sizes), byte_of(door), state);
    signed(outcome)
}

// A request.
#[unsafe(no_mangle)]
pub extern "C" fn palustrode_request(
    state: &mut [u8],
    memory: &mut [u8],
    message: &[u8],
    reply: &mut [u8],
) -> i64
    ensures { Returns (call_on state.old memory.old (request message.now reply.old)) result state.new memory.new reply.new }
{
    let outcome = request(state, memory, message, reply);
    signed(outcome)
}

// The nine words of 18 bytes, low byte first.
fn words_of(words: &[u8]) -> [u16; 9]
    requires { length words.now ≡ 18 }
    ensures { result ≡ vector_of words.now }
{
    let mut vector = [0u8; 18];
    vector.copy_from_slice(words);
    vector_of(vector)
}

// A machine report; the nine words are 18 bytes, low byte first. Returns the length of the notice and 256 times that of the line that it answers.
#[unsafe(no_mangle)]
pub extern "C" fn palustrode_report(
    state: &mut [u8],
    memory: &mut [u8],
    pid: u64,
    kind: u64,
    reason: u64,
    words: &[u8],
    notice: &mut [u8],
    line: &mut [u8],
) -> i64
    ensures { Reports (report_on state.old memory.old pid kind reason words.now notice.old line.old) result state.new memory.new notice.new line.new }
{
    if words.len() != 18 {
        return minus(1);
    }
    let told = report(
        state,
        memory,
        byte_of(pid),
        byte_of(kind_of(kind, reason)),
        (reason % 65536) as u16,
        words_of(words),
        notice,
        line,
    );
    signed(both_lengths(told))
}

// A text line.
#[unsafe(no_mangle)]
pub extern "C" fn palustrode_line(
    state: &mut [u8],
    memory: &mut [u8],
    text: &[u8],
    line: &mut [u8],
) -> i64
    ensures { Returns (call_on state.old memory.old (text_line text.now line.old)) result state.new memory.new line.new }
{
    let outcome = text_line(state, memory, text, line);
    signed(outcome)
}

// A packet of the Pup door: its type, its ID and its data words, and the buffer for those of its acknowledgement. Returns how many words that has.
#[unsafe(no_mangle)]
pub extern "C" fn palustrode_packet(
    state: &mut [u8],
    memory: &mut [u8],
    kind: u64,
    id: u64,
    words: &[u16],
    ack: &mut [u16],
) -> i64
    ensures { Returns (packet_on state.old memory.old kind id words.now ack.old) result state.new memory.new ack.new }
{
    let outcome = packet(
        state,
        memory,
        type_of(kind, id),
        (id % 4294967296) as u32,
        words,
        ack,
    );
    signed(outcome)
}

// A tick of a tenth of a second, at the process of the Pup door.
#[unsafe(no_mangle)]
pub extern "C" fn palustrode_tick(state: &mut [u8]) -> i64
    ensures { (memory : List ℕ) → Returns (call_on state.old memory (tick (door_of state.old))) result state.new memory [] }
{
    let outcome = tick(state);
    signed(outcome)
}

// The two numbers, in their order.
fn hand_facts(two: [u64; 2], facts: &mut [u64])
    requires { length facts.old ≡ 2 }
    ensures { facts.new ≡ two }
{
    facts[0] = two[0];
    facts[1] = two[1];
}

// Why a request is refused: the facts in two numbers, and minus the number of the test that fails first, or 0.
#[unsafe(no_mangle)]
pub extern "C" fn palustrode_why(state: &[u8], message: &[u8], facts: &mut [u64]) -> i64
    ensures { (memory : List ℕ) → Returns (why_with state.now memory message.now facts.old) result state.now memory facts.new }
{
    if facts.len() != 2 {
        return minus(1);
    }
    let reason = why(state, message);
    hand_facts(reason.facts(), facts);
    minus(reason.number())
}
