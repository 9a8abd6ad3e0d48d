// The exported functions of the desk's end. A request is given as numbers as wide as C has them, so that none is cut on the way.
ghost use Rattle.std.specs.Prelude.{◌≡◌, length};
ghost use Rattle.c_api.specs.Desk.{Leaves, fields, arguments_fit, fields_fit, misfit_number, write_on, handed, read_on};

use crate::narrow::byte_of;
use crate::result::{minus, signed};
use format::{HEADER_BYTES, Header, MESSAGE_BYTES, Refusal, STRING_BYTES};
use message::{read_answer, write_request};
use ops::request_form;

// PID, ARG1 and ARG2 have room for their numbers.
#[tactic(auto, unfolding(crate::specs::Desk::arguments_fit))]
fn arguments_fit(pid: u64, arg1: u64, arg2: u64) -> bool
    ensures { result ≡ arguments_fit (fields 0 0 pid arg1 arg2) }
{
    pid < 256 && arg1 < 65536 && arg2 < 65536
}

// Every field has room for its number.
#[tactic(auto, unfolding(crate::specs::Desk::fields_fit, crate::specs::Desk::arguments_fit))]
fn fields_fit(host: u64, cmd: u64, pid: u64, arg1: u64, arg2: u64) -> bool
    ensures { result ≡ fields_fit (fields host cmd pid arg1 arg2) }
{
    host < 256 && cmd < 256 && arguments_fit(pid, arg1, arg2)
}

// The refusal of a request with this HOST, this CMD and a string of this length, of which a field has no room for its number.
fn misfit_refusal(host: u64, cmd: u64, carried: usize, request: &[u8]) -> Refusal
    ensures { result.0 ≡ misfit_number host cmd carried request.now }
{
    if request.len() < MESSAGE_BYTES {
        return Refusal::LENT;
    }
    if STRING_BYTES < carried {
        return Refusal::LENGTH;
    }
    if host == 0 {
        return Refusal::HEADER;
    }
    if 256 <= host {
        return Refusal::HEADER;
    }
    match request_form(byte_of(cmd)) {
        Some(_) => Refusal::FORM,
        None => Refusal::CODE,
    }
}

// Writes a request.
#[unsafe(no_mangle)]
pub extern "C" fn palustrode_write_request(
    host: u64,
    cmd: u64,
    pid: u64,
    arg1: u64,
    arg2: u64,
    string: &[u8],
    request: &mut [u8],
) -> i64
    ensures { Leaves (write_on (fields host cmd pid arg1 arg2) string.now request.old) result request.new }
{
    if !fields_fit(host, cmd, pid, arg1, arg2) {
        return minus(misfit_refusal(host, cmd, string.len(), request).0);
    }
    let header = Header {
        host: host as u8,
        cmd: cmd as u8,
        pid: pid as u8,
        arg1: arg1 as u16,
        arg2: arg2 as u16,
    };
    let outcome = write_request(header, string, request);
    signed(outcome)
}

// The five fields, in their order.
fn hand_over(h: Header, fields: &mut [u16])
    requires { length fields.old ≡ 5 }
    ensures { fields.new ≡ handed h }
{
    fields[0] = h.host as u16;
    fields[1] = h.cmd as u16;
    fields[2] = h.pid as u16;
    fields[3] = h.arg1;
    fields[4] = h.arg2;
}

// Reads a reply or notice.
#[unsafe(no_mangle)]
pub extern "C" fn palustrode_read_answer(message: &[u8], fields: &mut [u16]) -> i64
    ensures { Leaves (read_on message.now fields.old) result fields.new }
{
    if fields.len() != 5 {
        return minus(1);
    }
    match read_answer(message) {
        Ok(h) => {
            hand_over(h, fields);
            signed(Ok(message.len() - HEADER_BYTES))
        }
        Err(refusal) => minus(refusal.0),
    }
}
