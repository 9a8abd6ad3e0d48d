// The sentence of each reason.
#![tactic(auto, unfolding(crate::specs::Pattern::room, crate::specs::Pattern::widest))]

ghost use Rattle.std.specs.Prelude.{◌+◌, ◌≤◌, length};
ghost use Rattle.lines.specs.Scan.{Put};
ghost use Rattle.sentence.specs.Sentence.{sentence_room, debugger_text, state_text, want_text, run_state_text, past_end_text, past_last_text, past_text, full_text, form_text, other_text, sentence};

use crate::pattern::put_filled;
use crate::run_name::put_run_name;
use format::Header;
use lines::put;
use ops::{CREATE, DEPOSIT_VECTOR, END_WATCH, PROCEED};
use reasons::{Limit, Reason};

// No sentence is longer than this.
pub const SENTENCE_ROOM: usize = 160;

// The number of the run state ended.
const ENDED: u8 = 4;

// Who debugs the process, or that the asker does not watch it.
fn put_debugger(h: Header, host: u8, from: usize, out: &mut [u8]) -> usize
    requires { from + sentence_room ≤ length out.old }
    ensures put { Put from (debugger_text h host) out.old result out.new }
    ensures upper_bound { result ≤ from + sentence_room }
{
    let pattern: &[u8] = if h.cmd == END_WATCH {
        b"host @ does not watch process #"
    } else if host == 0 {
        b"nobody debugs process #"
    } else if host == h.host {
        b"host $ debugs process # itself: WATCH is for another host"
    } else {
        b"host $ debugs process #"
    };
    put_filled(h, host as u64, pattern, from, out)
}

// The run state of the process.
fn put_state(run: u8, from: usize, out: &mut [u8]) -> usize
    requires { from + 36 ≤ length out.old }
    ensures put { Put from (state_text run) out.old result out.new }
    ensures upper_bound { result ≤ from + 36 }
{
    let at = if run == ENDED {
        put(b"the process has ", from, out)
    } else {
        put(b"the process is ", from, out)
    };
    put_run_name(run, at, out)
}

// The run states that the op code wants.
fn put_want(h: Header, from: usize, out: &mut [u8]) -> usize
    requires { from + 58 ≤ length out.old }
    ensures put { Put from (want_text h) out.old result out.new }
    ensures upper_bound { result ≤ from + 58 }
{
    let pattern: &[u8] = if h.cmd == PROCEED {
        b": ! wants it at a breakpoint"
    } else {
        b": ! wants it stopped or at a breakpoint"
    };
    put_filled(h, 0, pattern, from, out)
}

// The run state of the process, and those that the op code wants.
fn put_run_state(h: Header, run: u8, from: usize, out: &mut [u8]) -> usize
    requires { from + sentence_room ≤ length out.old }
    ensures put { Put from (run_state_text h run) out.old result out.new }
    ensures upper_bound { result ≤ from + sentence_room }
{
    let at = put_state(run, from, out);
    put_want(h, at, out)
}

// By how much the end of the process or of the vector is passed.
fn put_past_end(h: Header, n: u64, from: usize, out: &mut [u8]) -> usize
    requires { from + sentence_room ≤ length out.old }
    ensures put { Put from (past_end_text h n) out.old result out.new }
    ensures upper_bound { result ≤ from + sentence_room }
{
    let pattern: &[u8] = if h.cmd == DEPOSIT_VECTOR {
        b"! of % at ^ of process #: + past the end of the vector (=)"
    } else {
        b"! of % at ^ of process #: + past its end (=)"
    };
    put_filled(h, n, pattern, from, out)
}

// By how much the last address of a breakpoint is passed, or that the address is odd.
fn put_past_last(h: Header, n: u64, from: usize, out: &mut [u8]) -> usize
    requires { from + sentence_room ≤ length out.old }
    ensures put { Put from (past_last_text h n) out.old result out.new }
    ensures upper_bound { result ≤ from + sentence_room }
{
    let pattern: &[u8] = if n == 0 {
        b"! at ^ of process #: the address is odd"
    } else {
        b"! at ^ of process #: + past the last address for a breakpoint (<)"
    };
    put_filled(h, n, pattern, from, out)
}

// Which limit is passed, and by how much.
#[tactic(auto, unfolding(crate::specs::Sentence::past_text, crate::specs::Pattern::room, crate::specs::Pattern::widest))]
fn put_past(h: Header, limit: Limit, n: u64, from: usize, out: &mut [u8]) -> usize
    requires { from + sentence_room ≤ length out.old }
    ensures put { Put from (past_text h limit n) out.old result out.new }
    ensures upper_bound { result ≤ from + sentence_room }
{
    match limit {
        Limit::End => put_past_end(h, n, from, out),
        Limit::Count => put_filled(h, n, b"! of % of process #: + over 256", from, out),
        Limit::Last => put_past_last(h, n, from, out),
    }
}

// That no breakpoint can be added.
fn put_full(h: Header, entries: u8, from: usize, out: &mut [u8]) -> usize
    requires { from + sentence_room ≤ length out.old }
    ensures put { Put from (full_text h entries) out.old result out.new }
    ensures upper_bound { result ≤ from + sentence_room }
{
    let pattern: &[u8] = if entries == 8 {
        b"all 8 breakpoints of process # are set"
    } else {
        b"host @ may set no more than $ breakpoints in process # while it is watched"
    };
    put_filled(h, entries as u64, pattern, from, out)
}

// What is wrong with the fields or the string.
fn put_form(h: Header, from: usize, out: &mut [u8]) -> usize
    requires { from + sentence_room ≤ length out.old }
    ensures put { Put from (form_text h) out.old result out.new }
    ensures upper_bound { result ≤ from + sentence_room }
{
    let pattern: &[u8] = if h.cmd == CREATE {
        b"a field that ! does not use is not 0, its size is odd or over 4096, or it has a string"
    } else {
        b"a field that ! does not use is not 0, or its string has a wrong length"
    };
    put_filled(h, 0, pattern, from, out)
}

// A test by its number alone.
#[tactic(auto, unfolding(crate::specs::Sentence::other_text, crate::specs::Pattern::room, crate::specs::Pattern::widest))]
fn put_other(h: Header, number: u8, from: usize, out: &mut [u8]) -> usize
    requires { from + sentence_room ≤ length out.old }
    ensures put { Put from (other_text h number) out.old result out.new }
    ensures upper_bound { result ≤ from + sentence_room }
{
    match number {
        2 => put_filled(h, 0, b"the state of the gateway is not sound", from, out),
        4 => put_filled(
            h,
            0,
            b"the message is not in the form of RFC 643: TYPE, LINK or STYPE is wrong, or HOST is 0",
            from,
            out,
        ),
        5 => put_filled(h, 0, b"! is not known", from, out),
        6 => put_form(h, from, out),
        7 => put_filled(h, 0, b"there is no process #", from, out),
        12 => put_filled(h, 0, b"there is no breakpoint at ^ in process #", from, out),
        13 => put_filled(
            h,
            0,
            b"there is no room for a new process: all 8 are there, or too few bytes are free",
            from,
            out,
        ),
        _ => put_filled(h, number as u64, b"refused with $", from, out),
    }
}

// The sentence of a request's header and a reason; the index after it.
#[tactic(auto, unfolding(crate::specs::Sentence::sentence, crate::specs::Pattern::room, crate::specs::Pattern::widest))]
pub fn put_sentence(h: Header, reason: Reason, from: usize, out: &mut [u8]) -> usize
    requires { from + sentence_room ≤ length out.old }
    ensures put { Put from (sentence h reason) out.old result out.new }
    ensures upper_bound { result ≤ from + sentence_room }
{
    match reason {
        Reason::Granted => put_filled(h, 0, b"granted", from, out),
        Reason::Length(n) => put_filled(
            h,
            n as u64,
            b"the message has +, not 10 to 266",
            from,
            out,
        ),
        Reason::Debugger(host) => put_debugger(h, host, from, out),
        Reason::RunState(run) => put_run_state(h, run, from, out),
        Reason::Past(limit, n) => put_past(h, limit, n as u64, from, out),
        Reason::Full(entries) => put_full(h, entries, from, out),
        Reason::Watcher(host) => put_filled(
            h,
            host as u64,
            b"host $ watches process # already",
            from,
            out,
        ),
        Reason::Setter(host) => put_filled(
            h,
            host as u64,
            b"host $ set the breakpoint at ^ of process #",
            from,
            out,
        ),
        Reason::Other(number) => put_other(h, number, from, out),
    }
}
