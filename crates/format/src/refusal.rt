// The tests of a message's layout, 3 to 6, in their order.
ghost use Rattle.std.specs.Prelude.{◌≡◌};
ghost use Rattle.format.specs.Outcome.{first_failing, unless};
ghost use Rattle.format.specs.Refusal.{used_or_zero, size_fits, arg_fits, fields_right, carried_length, wrong_length, wrong_header, misfits, layout_tests};

use crate::header::Header;
use crate::outcome::Refusal;
use crate::sizes::{HEADER_BYTES, LARGEST_SIZE, MESSAGE_BYTES};
use ops::{ArgUse, Carried, Form};

// The field is used, or it is zero.
fn used_or_zero(used: bool, value: u16) -> bool
    ensures { result ≡ used_or_zero used value }
{
    used || value == 0
}

// The size is even, and at most 4,096; 0 stands for 4,096.
fn size_fits(size: u16) -> bool
    ensures { result ≡ size_fits size }
{
    size % 2 == 0 && size <= LARGEST_SIZE
}

// ARG1 holds what its use allows.
fn arg_fits(used: ArgUse, value: u16) -> bool
    ensures { result ≡ arg_fits used value }
{
    match used {
        ArgUse::Unused => value == 0,
        ArgUse::Any => true,
        ArgUse::Size => size_fits(value),
    }
}

// Every field that the form does not use is zero, and a size fits.
fn fields_right(f: Form, h: Header) -> bool
    ensures { result ≡ fields_right f h }
{
    used_or_zero(f.pid, h.pid as u16) && arg_fits(f.arg1, h.arg1) && used_or_zero(f.arg2, h.arg2)
}

// How many bytes a message with this ARG2 carries.
fn carried_length(carried: Carried, arg2: u16) -> usize
    ensures { result ≡ carried_length carried arg2 }
{
    match carried {
        Carried::Nothing => 0,
        Carried::Counted => arg2 as usize,
        Carried::Vector => 18,
    }
}

// Test 3: the message is under 10 or over 266 bytes.
fn wrong_length(length: usize) -> bool
    ensures { result ≡ wrong_length length }
{
    length < HEADER_BYTES || MESSAGE_BYTES < length
}

// Test 4: TYPE, LINK or STYPE is wrong, or HOST is 0. `fixed` says that the first three are right.
fn wrong_header(fixed: bool, host: u8) -> bool
    ensures { result ≡ wrong_header fixed host }
{
    !fixed || host == 0
}

// Test 6: an unused field is not zero, a size is odd or over 4,096, or the string has the wrong length.
fn misfits(f: Form, h: Header, length: usize) -> bool
    ensures { result ≡ misfits f h length }
{
    !fields_right(f, h) || length != HEADER_BYTES + carried_length(f.carried, h.arg2)
}

// The tests 3 to 6 of a message with these fields and this length, whose op code has the form that was found, or none.
pub fn check_layout(
    fixed: bool,
    found: Option<Form>,
    h: Header,
    length: usize,
) -> Result<(), Refusal>
    ensures { result ≡ unless (first_failing (layout_tests fixed found h length)) tt }
{
    if wrong_length(length) {
        return Err(Refusal::LENGTH);
    }
    if wrong_header(fixed, h.host) {
        return Err(Refusal::HEADER);
    }
    let Some(form) = found else {
        return Err(Refusal::CODE);
    };
    if misfits(form, h, length) {
        return Err(Refusal::FORM);
    }
    Ok(())
}
