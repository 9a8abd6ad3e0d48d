// The tests 8 to 12, 15 and 16 of a request that names a process, by its op code.
ghost use Rattle.std.specs.Prelude.{◌≡◌, ◌&&◌, ◌+◌, ◌<◌, leb};
ghost use Rattle.rules.specs.Rule.{public, rule_of};
ghost use Rattle.checks.specs.Decision.{own_decision, new_decision, break_decision, unbreak_decision, entry_decision, rule_decision};
ghost use Rattle.process.specs.Sizes.{entry_count};
ghost use Rattle.format.specs.Sizes.{string_bytes};

use crate::rights::{another_debugs, debugs, may_look, no_other_watches, watches};
use breakpoints::{EntryQuery, valid_break_address};
use format::{Header, Refusal};
use ops::{
    BREAK, DEBUG, DEPOSIT, DEPOSIT_VECTOR, END_WATCH, EXAMINE, PROCEED, RESUME, SINGLE_STEP,
    STATUS, UNBREAK, WATCH,
};
use process::{Process, VECTOR_BYTES};
use run_state::Run;

// 8: the asker debugs the process; for DEBUG, no other host does; for EXAMINE, BREAK, UNBREAK and STATUS he may watch it too; for WATCH another host
// debugs it, and for END WATCH he watches it.
fn right(cmd: u8, process: Process, asker: u8) -> bool
    ensures { result ≡ (rule_of cmd).right (public process) asker }
{
    match cmd {
        DEBUG => process.host == 0 || process.host == asker,
        EXAMINE | BREAK | UNBREAK | STATUS => may_look(process, asker),
        WATCH => another_debugs(process, asker),
        END_WATCH => watches(process, asker),
        _ => debugs(process, asker),
    }
}

// 15: for WATCH, no other host watches the process.
fn unwatched(cmd: u8, process: Process, asker: u8) -> bool
    ensures { result ≡ (rule_of cmd).unwatched (public process) asker }
{
    cmd != WATCH || no_other_watches(process, asker)
}

// 9: the run state is one that the op code works in.
fn runs(cmd: u8, run: Run) -> bool
    ensures { result ≡ (rule_of cmd).runs run }
{
    match cmd {
        RESUME | SINGLE_STEP => run.stopped_or_at_break(),
        PROCEED => run.at_break(),
        _ => true,
    }
}

// The address after so many bytes from this one on.
fn end_of(at: u16, count: u16) -> usize
    ensures { result ≡ at + count }
{
    at as usize + count as usize
}

// Whether so many bytes up to this end may be examined, in a process of this size.
fn readable(end: usize, count: u16, size: u16) -> bool
    ensures { result ≡ leb end size && leb count string_bytes }
{
    end <= size as usize && count <= 256
}

// 10: what is asked for lies inside the process, which has this size, or inside its vector.
fn range(h: Header, size: u16) -> bool
    ensures { result ≡ (rule_of h.cmd).range h size }
{
    let end = end_of(h.arg1, h.arg2);
    match h.cmd {
        DEPOSIT => end <= size as usize,
        EXAMINE => readable(end, h.arg2, size),
        DEPOSIT_VECTOR => end <= VECTOR_BYTES,
        BREAK => valid_break_address(size, h.arg1),
        _ => true,
    }
}

// 16: the breakpoint in entry k is the asker's.
fn own_decision(k: usize, asker: u8, process: Process) -> Result<usize, Refusal>
    requires { k < entry_count }
    ensures { result ≡ own_decision k asker process }
{
    if process.breaks[k].setter == asker {
        Ok(k)
    } else {
        Err(Refusal::SETTER)
    }
}

// 11: there is a free entry for a breakpoint more of the asker, and he may set one.
fn new_decision(asker: u8, process: Process) -> Result<usize, Refusal>
    ensures { result ≡ new_decision asker process }
{
    if !process.may_have_more(asker) {
        return Err(Refusal::ENTRY);
    }
    match process.find(EntryQuery::Free) {
        Some(k) => Ok(k),
        None => Err(Refusal::ENTRY),
    }
}

// 11 and 16: a BREAK at this address has an entry to go to.
fn break_decision(asker: u8, a: u16, process: Process) -> Result<usize, Refusal>
    ensures { result ≡ break_decision asker a process }
{
    match process.find(EntryQuery::At(a)) {
        Some(k) => own_decision(k, asker, process),
        None => new_decision(asker, process),
    }
}

// 12 and 16: there is a breakpoint to remove.
fn unbreak_decision(asker: u8, a: u16, process: Process) -> Result<usize, Refusal>
    ensures { result ≡ unbreak_decision asker a process }
{
    match process.find(EntryQuery::At(a)) {
        Some(k) => own_decision(k, asker, process),
        None => Err(Refusal::BREAKPOINT),
    }
}

// 11, 12 and 16.
fn entry_decision(h: Header, process: Process) -> Result<usize, Refusal>
    ensures { result ≡ entry_decision h process }
{
    match h.cmd {
        BREAK => break_decision(h.host, h.arg1, process),
        UNBREAK => unbreak_decision(h.host, h.arg1, process),
        _ => Ok(0),
    }
}

// The first of these tests that fails, or the entry that the request goes to.
pub(crate) fn rule_decision(h: Header, process: Process) -> Result<usize, Refusal>
    ensures { result ≡ rule_decision h process }
{
    if !right(h.cmd, process, h.host) {
        return Err(Refusal::RIGHT);
    }
    if !unwatched(h.cmd, process, h.host) {
        return Err(Refusal::WATCHER);
    }
    if !runs(h.cmd, process.run) {
        return Err(Refusal::RUN_STATE);
    }
    if !range(h, process.size) {
        return Err(Refusal::RANGE);
    }
    entry_decision(h, process)
}
