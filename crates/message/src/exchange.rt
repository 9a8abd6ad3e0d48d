// Writing and reading a message whose form was found: what requests and answers have in common.
ghost use Rattle.std.specs.Prelude.{◌≡◌, ◌≤◌, length};
ghost use Rattle.format.specs.Layout.{header_of};
ghost use Rattle.format.specs.Outcome.{unless};
ghost use Rattle.message.specs.Exchange.{write_number, write_as, read_as};
ghost use Rattle.format.specs.Sizes.{header_bytes};

use format::{
    HEADER_BYTES, Header, MESSAGE_BYTES, Refusal, STRING_BYTES, check_layout, fixed_right,
    put_string,
};
use ops::Form;

// A writer's tests, for a string of this length.
fn check_write(found: Option<Form>, h: Header, carried: usize, buffer: &[u8]) -> Result<(), Refusal>
    ensures { result ≡ unless (write_number found h carried buffer.now) tt }
{
    if buffer.len() < MESSAGE_BYTES {
        return Err(Refusal::LENT);
    }
    if STRING_BYTES < carried {
        return Err(Refusal::LENGTH);
    }
    check_layout(true, found, h, HEADER_BYTES + carried)
}

// A message: its header, and its string after it.
pub(crate) fn write(
    found: Option<Form>,
    h: Header,
    string: &[u8],
    buffer: &mut [u8],
) -> Result<usize, Refusal>
    ensures value { result ≡ (write_as found h string.now buffer.old).outcome }
    ensures buffer_after { buffer.new ≡ (write_as found h string.now buffer.old).buffer }
{
    check_write(found, h, string.len(), buffer)?;
    h.put(buffer);
    put_string(string, buffer);
    Ok(HEADER_BYTES + string.len())
}

// The fields of a message of ten bytes or more, or the refusal by the first test that fails.
pub(crate) fn read(found: Option<Form>, h: Header, message: &[u8]) -> Result<Header, Refusal>
    requires header_bytes_in_bounds { header_bytes ≤ length message.now }
    requires h_value { h ≡ header_of message.now }
    ensures { result ≡ read_as found message.now }
{
    check_layout(fixed_right(message), found, h, message.len())?;
    Ok(h)
}
