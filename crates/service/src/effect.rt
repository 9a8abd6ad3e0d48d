// What a request does to the process that it names, once its tests have passed.
ghost use Rattle.std.specs.Prelude.{◌≡◌, ◌≤◌, length};
ghost use Rattle.lists.specs.Buffer.{overlay};
ghost use Rattle.format.specs.Outcome.{first_failing};
ghost use Rattle.process.specs.Local.{local, Present};
ghost use Rattle.rules.specs.Rule.{rule_of};
ghost use Rattle.rules.specs.Tests.{rule_tests};
ghost use Rattle.checks.specs.Decision.{entry_of};
ghost use Rattle.service.specs.At.{changes};

use format::Header;
use ops::{
    BREAK, DEBUG, DEPOSIT, DEPOSIT_VECTOR, DESTROY, END_DEBUG, END_WATCH, EXAMINE, PROCEED, RESUME,
    SINGLE_STEP, STATUS, STOP, UNBREAK, WATCH,
};
use process::Process;

// Whether a granted request of this op code may change its process; EXAMINE and STATUS do not.
pub fn changes(cmd: u8) -> bool
    ensures { result ≡ changes cmd }
{
    cmd != STATUS && cmd != EXAMINE
}

// One method of the process for each op code; k is the entry that BREAK or UNBREAK goes to. A match, and no table of functions, since each
// takes other arguments.
pub(crate) fn perform(
    h: Header,
    k: usize,
    process: Process,
    bytes: &mut [u8],
    string: &[u8],
) -> Process
    requires present { Present process bytes.old }
    requires process_value { first_failing (rule_tests (rule_of h.cmd) h process) ≡ 0 }
    requires k_value { k ≡ entry_of h.cmd h.arg1 process }
    requires string_len_bound { length string.now ≤ h.arg2 }
    ensures value { result ≡ ((rule_of h.cmd).effect h string.now (local process bytes.old)).process }
    ensures bytes_after { bytes.new ≡ overlay ((rule_of h.cmd).effect h string.now (local process bytes.old)).bytes bytes.old }
{
    let at = h.arg1;
    match h.cmd {
        DEBUG => process.debug(h.host),
        END_DEBUG => process.end_debug(bytes),
        STOP => process.stop(bytes),
        DEPOSIT => process.deposit(bytes, at as usize, string),
        RESUME => process.resume(),
        DEPOSIT_VECTOR => process.deposit_vector(at as usize, string),
        BREAK => process.set_break(k, h.host, at, h.arg2, bytes),
        UNBREAK => process.remove_from(k, bytes),
        SINGLE_STEP => process.single_step(bytes),
        PROCEED => process.proceed(bytes),
        DESTROY => process.destroy(),
        WATCH => process.watch(h.host),
        END_WATCH => process.end_watch(bytes),
        _ => process,
    }
}
