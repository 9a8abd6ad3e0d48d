// The tests 1 and 2, which every call makes first; a tick makes 2 alone.
ghost use Rattle.std.specs.Prelude.{◌≡◌, false};
ghost use Rattle.rules.specs.Tests.{no_room, no_report_room, no_line_room, no_ack_room};
ghost use Rattle.format.specs.Outcome.{unless};
ghost use Rattle.gateway.specs.Called.{lent_on};

use fields::LINE_BYTES;
use format::{MESSAGE_BYTES, Refusal};
use packets::ACK_WORDS;
use state::CAPACITY;
use state_bytes::state_sound;

// Refuses with 1 where what is lent is too short, and with 2 where the bytes are not those of a sound state.
fn check_state(state: &[u8], short: bool) -> Result<(), Refusal>
    ensures { result ≡ unless (lent_on state.now short) tt }
{
    if short {
        return Err(Refusal::LENT);
    }
    if !state_sound(state) {
        return Err(Refusal::STATE);
    }
    Ok(())
}

// The tests of a request: memory has its length, and the buffer room for a message.
pub(crate) fn check_buffers_and_state(
    state: &[u8],
    memory: &[u8],
    buffer: &[u8],
) -> Result<(), Refusal>
    ensures { result ≡ unless (lent_on state.now (no_room memory.now buffer.now)) tt }
{
    if memory.len() != CAPACITY {
        return Err(Refusal::LENT);
    }
    check_state(state, buffer.len() < MESSAGE_BYTES)
}

// The same of a report, which is lent a line buffer too.
pub(crate) fn check_report_buffers_and_state(
    state: &[u8],
    memory: &[u8],
    buffer: &[u8],
    line: &[u8],
) -> Result<(), Refusal>
    ensures { result ≡ unless (lent_on state.now (no_report_room memory.now buffer.now line.now)) tt }
{
    if line.len() < LINE_BYTES {
        return Err(Refusal::LENT);
    }
    check_buffers_and_state(state, memory, buffer)
}

// The same of a text line, whose buffer is a line buffer.
pub(crate) fn check_line_buffer_and_state(
    state: &[u8],
    memory: &[u8],
    out: &[u8],
) -> Result<(), Refusal>
    ensures { result ≡ unless (lent_on state.now (no_line_room memory.now out.now)) tt }
{
    if out.len() < LINE_BYTES {
        return Err(Refusal::LENT);
    }
    check_state(state, memory.len() != CAPACITY)
}

// The same of a packet, whose buffer holds words: one function of both would take the type and the length, and say no more.
pub(crate) fn check_ack_buffer_and_state(
    state: &[u8],
    memory: &[u8],
    out: &[u16],
) -> Result<(), Refusal>
    ensures { result ≡ unless (lent_on state.now (no_ack_room memory.now out.now)) tt }
{
    if out.len() < ACK_WORDS {
        return Err(Refusal::LENT);
    }
    check_state(state, memory.len() != CAPACITY)
}

// The test of a tick, which is lent neither memory nor buffer.
pub(crate) fn check_state_alone(state: &[u8]) -> Result<(), Refusal>
    ensures { result ≡ unless (lent_on state.now false) tt }
{
    check_state(state, false)
}
