// A request that was read, at the process that it goes to.
ghost use Rattle.std.specs.Prelude.{◌≡◌, ◌≤◌, ◌<◌, length};
ghost use Rattle.format.specs.Outcome.{first_failing};
ghost use Rattle.process.specs.Local.{local, Tested, Present};
ghost use Rattle.rules.specs.Rule.{rule_of, size_asked};
ghost use Rattle.rules.specs.Tests.{rule_tests};
ghost use Rattle.checks.specs.Decision.{entry_of};
ghost use Rattle.service.specs.At.{served, named_by, named_at, created_at};
ghost use Rattle.format.specs.Sizes.{message_bytes};
ghost use Rattle.process.specs.Sizes.{memory_bytes};

use crate::effect::perform;
use crate::reply::{refuse, reply_plain, reply_to};
use crate::served::ServiceResult;
use checks::decide;
use format::Header;
use process::Process;

// Writes the reply to a request whose tests have passed, and does what it asks for.
fn grant(
    h: Header,
    k: usize,
    process: Process,
    bytes: &mut [u8],
    string: &[u8],
    reply: &mut [u8],
) -> ServiceResult
    requires present { Present process bytes.old }
    requires process_value { first_failing (rule_tests (rule_of h.cmd) h process) ≡ 0 }
    requires k_value { k ≡ entry_of h.cmd h.arg1 process }
    requires string_len_bound { length string.now ≤ h.arg2 }
    requires message_bytes_in_bounds { message_bytes ≤ length reply.old }
    ensures { served result.outcome result.process bytes.new reply.new ≡ named_by 0 h string.now reply.old (local process bytes.old) }
{
    let outcome = reply_to(h, process, bytes, reply);
    let next = perform(h, k, process, bytes, string);
    ServiceResult {
        outcome,
        process: next,
    }
}

// A request that names this process: its tests, what it does and its reply, or the CAN'T.
pub fn answer_for_process(
    h: Header,
    process: Process,
    bytes: &mut [u8],
    string: &[u8],
    reply: &mut [u8],
) -> ServiceResult
    requires tested { Tested process bytes.old }
    requires string_len_bound { length string.now ≤ h.arg2 }
    requires message_bytes_in_bounds { message_bytes ≤ length reply.old }
    ensures { served result.outcome result.process bytes.new reply.new ≡ named_at h string.now reply.old (local process bytes.old) }
{
    match decide(h, process) {
        Ok(k) => grant(h, k, process, bytes, string, reply),
        Err(refusal) => ServiceResult {
            outcome: refuse(h, refusal, reply),
            process,
        },
    }
}

// The size that a CREATE asks for; 0 asks for the greatest.
pub fn size_asked(h: Header) -> u16
    ensures { result ≡ size_asked h }
{
    if h.arg1 == 0 { 4096 } else { h.arg1 }
}

// CREATE, of the process with this number, with these bytes: as many as it asks for.
pub fn answer_create(
    h: Header,
    pid: usize,
    size: u16,
    process: Process,
    bytes: &mut [u8],
    reply: &mut [u8],
) -> ServiceResult
    requires pid_bound { pid < 8 }
    requires size_value { (size ≡ size_asked h) × (length bytes.old ≡ size) × (size ≤ memory_bytes) }
    requires message_bytes_in_bounds { message_bytes ≤ length reply.old }
    ensures { served result.outcome result.process bytes.new reply.new ≡ created_at pid h reply.old }
{
    let created = process.create(h.host, size, bytes);
    let outcome = reply_plain(h.created(pid as u8), reply);
    ServiceResult {
        outcome,
        process: created,
    }
}
