// The line that says why a request is refused.
ghost use Rattle.std.specs.Prelude.{◌≡◌, ◌+◌, ◌≤◌, length};
ghost use Rattle.lists.specs.Buffer.{overlay};
ghost use Rattle.lines.specs.Scan.{Put};
ghost use Rattle.display.specs.Reason.{limit_name, past_text, facts_text, reason_text, why_line};

use decimal::{put_field, put_number};
use lines::{put, put_mark};
use reasons::{Limit, Reason};

// The name of a limit, after a blank.
fn put_limit(limit: Limit, from: usize, out: &mut [u8]) -> usize
    requires { from + 6 ≤ length out.old }
    ensures put { Put from (limit_name limit) out.old result out.new }
    ensures upper_bound { result ≤ from + 6 }
{
    match limit {
        Limit::End => put(b" end", from, out),
        Limit::Count => put(b" count", from, out),
        Limit::Last => put(b" last", from, out),
    }
}

// The limit that is passed, and by how much.
fn put_past(limit: Limit, excess: u32, from: usize, out: &mut [u8]) -> usize
    requires { from + 27 ≤ length out.old }
    ensures put { Put from (past_text limit excess) out.old result out.new }
    ensures upper_bound { result ≤ from + 27 }
{
    let at = put_limit(limit, from, out);
    put_field(b' ', excess, at, out)
}

// The facts of a reason, each after a blank.
#[tactic(auto, unfolding(crate::specs::Reason::facts_text, lines::specs::Scan::kept))]
fn put_facts(reason: Reason, from: usize, out: &mut [u8]) -> usize
    requires { from + 27 ≤ length out.old }
    ensures put { Put from (facts_text reason) out.old result out.new }
    ensures upper_bound { result ≤ from + 27 }
{
    match reason {
        Reason::Granted | Reason::Other(_) => from,
        Reason::Length(n) => put_field(b' ', n as u64, from, out),
        Reason::Past(limit, excess) => put_past(limit, excess, from, out),
        Reason::Debugger(n)
        | Reason::RunState(n)
        | Reason::Full(n)
        | Reason::Watcher(n)
        | Reason::Setter(n) => put_field(b' ', n, from, out),
    }
}

// The word `granted`, or the number of a reason and its facts.
fn put_text(reason: Reason, out: &mut [u8]) -> usize
    requires { 32 ≤ length out.old }
    ensures put { Put 0 (reason_text reason) out.old result out.new }
    ensures upper_bound { result ≤ 32 }
{
    match reason.number() {
        0 => put(b"granted", 0, out),
        number => {
            let at = put_number(number, 0, out);
            put_facts(reason, at, out)
        }
    }
}

// Why a request is refused, or that it is granted, as a line; the length of the line.
pub fn put_reason(reason: Reason, out: &mut [u8]) -> usize
    requires { 33 ≤ length out.old }
    ensures value { result ≡ length (why_line reason) }
    ensures upper_bound { result ≤ length out.old }
    ensures out_after { out.new ≡ overlay (why_line reason) out.old }
{
    let end = put_text(reason, out);
    put_mark(b'\n', end, out);
    end + 1
}
