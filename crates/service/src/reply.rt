// The answers to a request.
ghost use Rattle.std.specs.Prelude.{◌≡◌, [], ◌+◌, ◌≤◌, length};
ghost use Rattle.format.specs.Answer.{with_args};
ghost use Rattle.format.specs.Outcome.{first_failing};
ghost use Rattle.run_state.specs.RunState.{run_number};
ghost use Rattle.process.specs.Local.{local, Present};
ghost use Rattle.process.specs.Request.{examined};
ghost use Rattle.rules.specs.Rule.{rule_of};
ghost use Rattle.rules.specs.Tests.{rule_tests};
ghost use Rattle.rules.specs.Step.{reply_of};
ghost use Rattle.service.specs.At.{answer, cant_by};
ghost use Rattle.format.specs.Sizes.{message_bytes, string_bytes};

use format::{HEADER_BYTES, Header, Refusal};
use message::{write_contents, write_reply};
use ops::{EXAMINE, STATUS};
use process::Process;

// Writes the reply that carries no string.
pub fn reply_plain(h: Header, reply: &mut [u8]) -> Result<usize, Refusal>
    requires { message_bytes ≤ length reply.old }
    ensures { answer result reply.new ≡ reply_of h [] reply.old }
{
    Ok(write_reply(h, reply))
}

// Writes the CAN'T, and refuses so.
pub fn refuse(h: Header, refusal: Refusal, reply: &mut [u8]) -> Result<usize, Refusal>
    requires fact { refusal.0 ≡ 0 → ⊥ }
    requires message_bytes_in_bounds { message_bytes ≤ length reply.old }
    ensures { answer result reply.new ≡ cant_by refusal.0 h reply.old }
{
    write_reply(h.cant(), reply);
    Err(refusal)
}

// Writes the reply to EXAMINE: the bytes asked for, and the header in front of them.
fn reply_contents(
    h: Header,
    process: Process,
    bytes: &[u8],
    reply: &mut [u8],
) -> Result<usize, Refusal>
    requires arg2_in_bounds { (h.arg1 + h.arg2 ≤ length bytes.now) × (h.arg2 ≤ string_bytes) }
    requires message_bytes_in_bounds { message_bytes ≤ length reply.old }
    ensures { answer result reply.new ≡ reply_of h (examined h.arg1 h.arg2 (local process bytes.now)) reply.old }
{
    let at = h.arg1 as usize;
    let end = HEADER_BYTES + h.arg2 as usize;
    process.examine(bytes, at, &mut reply[HEADER_BYTES..end]);
    Ok(write_contents(h, reply))
}

// Writes the reply to STATUS: the number of breakpoints and the run state.
fn reply_status(h: Header, process: Process, reply: &mut [u8]) -> Result<usize, Refusal>
    requires { message_bytes ≤ length reply.old }
    ensures { answer result reply.new ≡ reply_of (with_args process.number (run_number process.run) h) [] reply.old }
{
    let number = process.number as u16;
    reply_plain(h.with_args(number, process.run.number() as u16), reply)
}

// Writes the reply to a request whose tests have passed.
pub(crate) fn reply_to(
    h: Header,
    process: Process,
    bytes: &[u8],
    reply: &mut [u8],
) -> Result<usize, Refusal>
    requires present { Present process bytes.now }
    requires process_value { first_failing (rule_tests (rule_of h.cmd) h process) ≡ 0 }
    requires message_bytes_in_bounds { message_bytes ≤ length reply.old }
    ensures { answer result reply.new ≡ reply_of ((rule_of h.cmd).header h (local process bytes.now)) ((rule_of h.cmd).shown h (local process bytes.now)) reply.old }
{
    match h.cmd {
        EXAMINE => reply_contents(h, process, bytes, reply),
        STATUS => reply_status(h, process, reply),
        _ => reply_plain(h, reply),
    }
}
