// The tests of a text line at the process that it names.
ghost use Rattle.std.specs.Prelude.{◌≡◌};
ghost use Rattle.rules.specs.Rule.{public};
ghost use Rattle.rules.specs.TextRule.{word_range, register_range, pc_range};
ghost use Rattle.format.specs.Outcome.{unless};
ghost use Rattle.text_door.specs.At.{request_of, row_of, text_number_at};

use crate::request::TextRequest;
use breakpoints::valid_break_address;
use checks::{debugs, may_look};
use fields::Line;
use format::Refusal;
use process::Process;
use session::TEXT_HOST;

// 101: for a word that is read, the host of the text lines may look; for all else it debugs the process.
fn right(request: TextRequest, process: Process) -> bool
    ensures { result ≡ (row_of request).right (public process) }
{
    match request {
        TextRequest::ReadWord => may_look(process, TEXT_HOST),
        TextRequest::WriteWord => debugs(process, TEXT_HOST),
        TextRequest::ReadRegister => debugs(process, TEXT_HOST),
        TextRequest::WriteRegister => debugs(process, TEXT_HOST),
        TextRequest::Continue => debugs(process, TEXT_HOST),
        TextRequest::Step => debugs(process, TEXT_HOST),
    }
}

// 122: the run state is one that the process can go on from, and a register has room for the value.
#[tactic(auto, unfolding(crate::specs::At::row_of))]
fn state_fits(request: TextRequest, line: Line, process: Process) -> bool
    ensures { result ≡ (row_of request).state line process }
{
    match request {
        TextRequest::ReadWord | TextRequest::WriteWord | TextRequest::ReadRegister => true,
        TextRequest::WriteRegister => line.fourth <= 65535,
        TextRequest::Continue => process.run.stopped_or_at_break(),
        TextRequest::Step => process.run.stopped_or_at_break(),
    }
}

// A word at this address lies inside a process of this size, at an address divisible by 4.
fn word_fits(line: Line, size: u16) -> bool
    ensures { result ≡ word_range line size }
{
    let address = line.third;
    if address % 4 != 0 {
        return false;
    }
    if 65535 < address {
        return false;
    }
    let end = address + 4;
    end <= size as u32
}

// There is a register of this number.
fn register_fits(line: Line, size: u16) -> bool
    ensures { result ≡ register_range line size }
{
    line.third < 9
}

// The new PC is even and inside a process of this size; 1 stands for no new PC.
fn pc_fits(line: Line, size: u16) -> bool
    ensures { result ≡ pc_range line size }
{
    let address = line.third;
    if address == 1 {
        return true;
    }
    if 65535 < address {
        return false;
    }
    valid_break_address(size, address as u16)
}

// 114: what is asked for lies inside the process, which has this size, and is aligned, or is one of the registers.
fn range(request: TextRequest, line: Line, size: u16) -> bool
    ensures { result ≡ (row_of request).range line size }
{
    match request {
        TextRequest::ReadWord => word_fits(line, size),
        TextRequest::WriteWord => word_fits(line, size),
        TextRequest::ReadRegister => register_fits(line, size),
        TextRequest::WriteRegister => register_fits(line, size),
        TextRequest::Continue => pc_fits(line, size),
        TextRequest::Step => pc_fits(line, size),
    }
}

// The tests 103, 101, 116, 122 and 114, in this order.
pub(crate) fn check_line(request: TextRequest, line: Line, process: Process) -> Result<(), Refusal>
    requires { request ≡ request_of line.letter }
    ensures { result ≡ unless (text_number_at line process) tt }
{
    if !process.there {
        return Err(Refusal::TEXT_PROCESS);
    }
    if !right(request, process) {
        return Err(Refusal::TEXT_RIGHT);
    }
    if process.session.owed.owes() {
        return Err(Refusal::TEXT_OWED);
    }
    if !state_fits(request, line, process) {
        return Err(Refusal::TEXT_LINE);
    }
    if !range(request, line, process.size) {
        return Err(Refusal::TEXT_RANGE);
    }
    Ok(())
}
