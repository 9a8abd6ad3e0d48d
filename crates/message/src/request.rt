// Requests: the desk writes them, the gateway reads them.
ghost use Rattle.std.specs.Prelude.{◌≡◌};
ghost use Rattle.ops.specs.Table.{request_form};
ghost use Rattle.message.specs.Exchange.{writes};
ghost use Rattle.message.specs.Incoming.{received};

use crate::exchange::write;
use format::{HEADER_BYTES, Header, Refusal, check_layout, fixed_right};
use ops::{Form, request_form};

// The desk writes a request with this string, by the tests 1, 3, 4, 5, 6.
pub fn write_request(h: Header, string: &[u8], buffer: &mut [u8]) -> Result<usize, Refusal>
    ensures value { result ≡ (writes request_form h string.now buffer.old).outcome }
    ensures buffer_after { buffer.new ≡ (writes request_form h string.now buffer.old).buffer }
{
    write(request_form(h.cmd), h, string, buffer)
}

// The gateway reads any bytes as a request, by the tests 3 to 6: its fields, and the form of its op code, which is found here and handed on.
pub fn read_request(message: &[u8]) -> Result<(Header, Form), Refusal>
    ensures { result ≡ received message.now }
{
    if message.len() < HEADER_BYTES {
        return Err(Refusal::LENGTH);
    }
    let h = Header::of(message);
    let found = request_form(h.cmd);
    check_layout(fixed_right(message), found, h, message.len())?;
    match found {
        Some(form) => Ok((h, form)),
        None => Err(Refusal::CODE),
    }
}
