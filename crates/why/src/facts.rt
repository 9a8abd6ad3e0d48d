// The facts of a test, from what is asked and from the process.
ghost use Rattle.std.specs.Prelude.{◌≡◌, ◌+◌, ◌-◌, ◌<◌};
ghost use Rattle.process.specs.Sizes.{entry_count};
ghost use Rattle.process.specs.Record.{entry};
ghost use Rattle.rules.specs.Why.{end_for, limit_passed, excess_over, full_of, who_set, reason_for, reason_without_process, past_of};

use breakpoints::EntryQuery;
use format::Header;
use ops::{BREAK, DEPOSIT_VECTOR};
use process::{Process, VECTOR_BYTES};
use reasons::{Limit, Reason};

// By how much a number is over a limit, 0 where it is not.
fn over(n: u32, limit: u32) -> u32
    ensures { result ≡ n - limit }
{
    n.saturating_sub(limit)
}

// The address after the bytes that are asked for.
fn asked_end(h: Header) -> u32
    ensures { result ≡ h.arg1 + h.arg2 }
{
    h.arg1 as u32 + h.arg2 as u32
}

// The end of what an op code reaches into.
fn limit_end(h: Header, size: u16) -> u32
    ensures { result ≡ end_for h size }
{
    if h.cmd == DEPOSIT_VECTOR {
        VECTOR_BYTES as u32
    } else {
        size as u32
    }
}

// The first limit that is passed, where one is.
fn limit_passed(h: Header, size: u16) -> Limit
    ensures { result ≡ limit_passed h size }
{
    if h.cmd == BREAK {
        return Limit::Last;
    }
    if asked_end(h) <= limit_end(h, size) {
        return Limit::Count;
    }
    Limit::End
}

// By how much a limit is passed.
fn excess_over(limit: Limit, h: Header, size: u16) -> u32
    ensures { result ≡ excess_over limit h size }
{
    match limit {
        Limit::End => over(asked_end(h), limit_end(h, size)),
        Limit::Count => over(h.arg2 as u32, 256),
        Limit::Last => over(h.arg1 as u32, over(size as u32, 2)),
    }
}

// 10: which limit is passed, and by how much.
fn past(h: Header, size: u16) -> Reason
    ensures { result ≡ past_of h size }
{
    let limit = limit_passed(h, size);
    Reason::Past(limit, excess_over(limit, h, size))
}

// 11: 8 where all entries are used, else 4.
fn full_of(process: Process) -> u8
    ensures { result ≡ full_of «process» }
{
    match process.find(EntryQuery::Free) {
        Some(_) => 4,
        None => 8,
    }
}

// Who set the breakpoint in entry k.
fn setter_in(k: usize, process: Process) -> u8
    requires { k < entry_count }
    ensures { result ≡ (entry «process» k).setter }
{
    process.breaks[k].setter
}

// 16: who set the breakpoint at the address that is asked for; 0 where there is none.
fn who_set(h: Header, process: Process) -> u8
    ensures { result ≡ who_set h «process» }
{
    match process.find(EntryQuery::At(h.arg1)) {
        Some(k) => setter_in(k, process),
        None => 0,
    }
}

// The reason of a test that looks at no process, in a message of so many bytes.
pub fn reason_without_process(number: u8, count: usize) -> Reason
    ensures { result ≡ reason_without_process number count }
{
    if number == 3 {
        Reason::Length(count)
    } else {
        Reason::Other(number)
    }
}

// The reason of the test with this number.
pub(crate) fn reason_for(number: u8, h: Header, count: usize, process: Process) -> Reason
    ensures { result ≡ reason_for number h count «process» }
{
    match number {
        0 => Reason::Granted,
        3 => Reason::Length(count),
        8 => Reason::Debugger(process.host),
        9 => Reason::RunState(process.run.number()),
        10 => past(h, process.size),
        11 => Reason::Full(full_of(process)),
        15 => Reason::Watcher(process.session.watcher),
        16 => Reason::Setter(who_set(h, process)),
        _ => Reason::Other(number),
    }
}
