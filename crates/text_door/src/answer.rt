// The line that answers a text line.
ghost use Rattle.std.specs.Prelude.{◌≡◌, ◌≤◌, length};
ghost use Rattle.fields.specs.Written.{line_bytes};
ghost use Rattle.process.specs.Local.{local, Tested, Present};
ghost use Rattle.rules.specs.Step.{text_refusal};
ghost use Rattle.rules.specs.TextRule.{response};
ghost use Rattle.service.specs.At.{answer, served};
ghost use Rattle.text_door.specs.At.{row_of, Passed, replied, granted_by, text_at};

use crate::effect::{perform, read_register, read_word};
use crate::request::{TextRequest, request_of};
use crate::rule::check_line;
use fields::{Line, TextAnswer, write_answer};
use format::Refusal;
use process::Process;
use service::ServiceResult;

// Refuses so, by a number of 100 or more: the line with the flag and the errno is written.
pub fn fail(refusal: Refusal, line: Line, out: &mut [u8]) -> Result<usize, Refusal>
    requires le_number { 100 ≤ refusal.0 }
    requires line_bytes_in_bounds { line_bytes ≤ length out.old }
    ensures { answer result out.new ≡ text_refusal refusal.0 line out.old }
{
    let errno = refusal.0 as u32 - 100;
    let failure = TextAnswer {
        pid: line.pid,
        letter: line.letter,
        failed: true,
        value: errno,
    };
    write_answer(failure, out);
    Err(refusal)
}

// Answers with this value.
fn respond(line: Line, value: u32, out: &mut [u8]) -> Result<usize, Refusal>
    requires { line_bytes ≤ length out.old }
    ensures { answer result out.new ≡ replied (response line value) out.old }
{
    let response = TextAnswer {
        pid: line.pid,
        letter: line.letter,
        failed: false,
        value,
    };
    Ok(write_answer(response, out))
}

// Answers at once, with the word or the register as it is before; what lets the process go on is answered later.
fn reply_to(
    request: TextRequest,
    line: Line,
    process: Process,
    bytes: &[u8],
    out: &mut [u8],
) -> Result<usize, Refusal>
    requires present { Present process bytes.now }
    requires passed { Passed request line process }
    requires line_bytes_in_bounds { line_bytes ≤ length out.old }
    ensures { answer result out.new ≡ replied ((row_of request).reply line (local process bytes.now)) out.old }
{
    match request {
        TextRequest::ReadWord => respond(line, read_word(line, process, bytes), out),
        TextRequest::WriteWord => respond(line, read_word(line, process, bytes), out),
        TextRequest::ReadRegister => respond(line, read_register(line, process), out),
        TextRequest::WriteRegister => respond(line, read_register(line, process), out),
        TextRequest::Continue => Ok(0),
        TextRequest::Step => Ok(0),
    }
}

// Answers a line whose tests have passed, and does what it asks for.
fn grant(
    request: TextRequest,
    line: Line,
    process: Process,
    bytes: &mut [u8],
    out: &mut [u8],
) -> ServiceResult
    requires present { Present process bytes.old }
    requires passed { Passed request line process }
    requires line_bytes_in_bounds { line_bytes ≤ length out.old }
    ensures { served result.outcome result.process bytes.new out.new ≡ granted_by request line out.old (local process bytes.old) }
{
    let outcome = reply_to(request, line, process, bytes, out);
    let next = perform(request, line, process, bytes);
    ServiceResult {
        outcome,
        process: next,
    }
}

// A text line to this process: its tests, what it does and the line that answers it, or the one that refuses it.
pub fn line_for_process(
    line: Line,
    process: Process,
    bytes: &mut [u8],
    out: &mut [u8],
) -> ServiceResult
    requires tested { Tested process bytes.old }
    requires line_bytes_in_bounds { line_bytes ≤ length out.old }
    ensures { served result.outcome result.process bytes.new out.new ≡ text_at line out.old (local process bytes.old) }
{
    let request = request_of(line.letter);
    match check_line(request, line, process) {
        Ok(_) => grant(request, line, process, bytes, out),
        Err(failed) => ServiceResult {
            outcome: fail(failed, line, out),
            process,
        },
    }
}
