// Why a request is refused: the first test that fails, from the same tests as the request's own, with its facts. Neither memory nor a buffer is lent,
// and nothing changes.
ghost use Rattle.std.specs.Prelude.{◌≡◌, true, []};
ghost use Rattle.message.specs.Incoming.{incoming, received};
ghost use Rattle.rules.specs.Tests.{lent, no_place};
ghost use Rattle.state_bytes.specs.State.{state_of, state_sound};
ghost use Rattle.gateway.specs.Stage.{create_reason};
ghost use Rattle.gateway.specs.Called.{why_on};

use crate::requests::no_place;
use format::Header;
use message::read_request;
use ops::Form;
use reasons::Reason;
use service::{Target, size_asked, target_of};
use state_bytes::{lowest_absent, read_process_at, state_sound, used_bytes};
use why::{reason_without_process, why_for_process};

// 13: whether there is no place for the process that a CREATE asks for.
fn no_place_for(h: Header, state: &[u8]) -> bool
    requires { state_sound state.now ≡ true }
    ensures { result ≡ no_place h (lent (state_of state.now) []) }
{
    let pid = lowest_absent(state);
    let start = used_bytes(state);
    no_place(pid, start, size_asked(h))
}

// Of a CREATE.
fn why_new(h: Header, state: &[u8]) -> Reason
    requires { state_sound state.now ≡ true }
    ensures { result ≡ create_reason (no_place h (lent (state_of state.now) [])) }
{
    if no_place_for(h, state) {
        return Reason::Other(13);
    }
    Reason::Granted
}

// Of a message that was read as a request of this form.
fn why_read(h: Header, form: Form, state: &[u8], message: &[u8]) -> Reason
    requires form_value { incoming 0 h form ≡ received message.now }
    requires state_value { state_sound state.now ≡ true }
    ensures { result ≡ why_on state.now message.now }
{
    match target_of(form, h) {
        Target::Named(pid) => why_for_process(h, message.len(), read_process_at(state, pid)),
        Target::OutOfRange => Reason::Other(7),
        Target::New => why_new(h, state),
        Target::Nowhere => Reason::Granted,
    }
}

// Says of any bytes why they would be refused as a request, or that they would be granted, memory and reply buffer being right.
pub fn why(state: &[u8], message: &[u8]) -> Reason
    ensures { result ≡ why_on state.now message.now }
{
    if !state_sound(state) {
        return Reason::Other(2);
    }
    match read_request(message) {
        Ok((h, form)) => why_read(h, form, state, message),
        Err(refusal) => reason_without_process(refusal.0, message.len()),
    }
}
