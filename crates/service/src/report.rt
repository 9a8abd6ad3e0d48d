// A machine report, at the process that it is about.
ghost use Rattle.std.specs.Prelude.{◌≡◌, ◌≤◌, length};
ghost use Rattle.process.specs.Local.{local, Tested};
ghost use Rattle.lists.specs.Buffer.{overlay};
ghost use Rattle.fields.specs.Written.{line_bytes};
ghost use Rattle.rules.specs.TextRule.{status_of, owed_line};
ghost use Rattle.rules.specs.Step.{notice_to};
ghost use Rattle.rules.specs.Tests.{bad_report};
ghost use Rattle.service.specs.At.{answer, report_served, report_away, report_number_at, report_at};
ghost use Rattle.format.specs.Outcome.{unless};
ghost use Rattle.format.specs.Sizes.{message_bytes};

use crate::served::ReportServed;
use fields::{TextAnswer, write_answer};
use format::Refusal;
use message::write_notice;
use process::Process;
use run_state::{HALT, TRAP, TTRAP};
use session::Owed;

// 14: there is no such kind, or there is a reason with a kind that is not TRAP.
fn bad_report(kind: u8, reason: u16) -> bool
    ensures { result ≡ bad_report kind reason }
{
    TTRAP < kind || reason != 0 && kind != TRAP
}

// The tests that look at no process: 14, and 7 where there is no process of this number.
pub fn check_report(pid: u8, kind: u8, reason: u16) -> Result<(), Refusal>
    ensures { result ≡ unless (report_away pid kind reason) tt }
{
    if bad_report(kind, reason) {
        return Err(Refusal::REPORT);
    }
    if 8 <= pid {
        return Err(Refusal::PROCESS);
    }
    Ok(())
}

// The tests at the process: 7 where it is not there, 9 where it does not accept the report.
fn check_report_at(process: Process, kind: u8) -> Result<(), Refusal>
    ensures { result ≡ unless (report_number_at kind «process») tt }
{
    if !process.there {
        return Err(Refusal::PROCESS);
    }
    if !process.run.accepts(kind) {
        return Err(Refusal::RUN_STATE);
    }
    Ok(())
}

// Writes the notice to this host, unless it is nobody.
fn notify(
    host: u8,
    pid: u8,
    kind: u8,
    reason: u16,
    words: [u16; 9],
    notice: &mut [u8],
) -> Result<usize, Refusal>
    requires { message_bytes ≤ length notice.old }
    ensures { answer result notice.new ≡ notice_to host pid kind reason words notice.old }
{
    if host == 0 {
        return Ok(0);
    }
    Ok(write_notice(host, kind, pid, reason, words, notice))
}

// The status of a process that has ended.
const ENDED_STATUS: u32 = 0;

// The status of one that was stopped by a trap, signal 4: 127, and 256 times the signal.
const TRAP_STATUS: u32 = 1151;

// The status of one that was stopped by a breakpoint or after a step, signal 5.
const BREAK_STATUS: u32 = 1407;

// The status that answers a `c` or an `s` after a report of this kind.
fn status(kind: u8) -> u32
    ensures { result ≡ status_of kind }
{
    match kind {
        HALT => ENDED_STATUS,
        TRAP => TRAP_STATUS,
        _ => BREAK_STATUS,
    }
}

// Writes the line of an owed answer, if one is owed; its length.
fn answer_owed(owed: Owed, pid: u8, kind: u8, line: &mut [u8]) -> usize
    requires { line_bytes ≤ length line.old }
    ensures { (result ≡ length (owed_line pid kind owed)) × (line.new ≡ overlay (owed_line pid kind owed) line.old) }
{
    if !owed.owes() {
        return 0;
    }
    let letter = owed.letter();
    let text = TextAnswer {
        pid: pid as u32,
        letter,
        failed: false,
        value: status(kind),
    };
    write_answer(text, line)
}

// A report about a process, with its record and its bytes: its tests, what it does, its notice and the line that it answers.
pub fn report_for_process(
    pid: u8,
    kind: u8,
    reason: u16,
    words: [u16; 9],
    process: Process,
    bytes: &mut [u8],
    notice: &mut [u8],
    line: &mut [u8],
) -> ReportServed
    requires tested { Tested «process» bytes.old }
    requires message_bytes_in_bounds { message_bytes ≤ length notice.old }
    requires line_bytes_in_bounds { line_bytes ≤ length line.old }
    ensures { report_served result.outcome result.line result.process bytes.new notice.new line.new ≡ report_at pid kind reason words notice.old line.old (local «process» bytes.old) }
{
    if let Err(refusal) = check_report_at(process, kind) {
        return ReportServed {
            outcome: Err(refusal),
            line: 0,
            process,
        };
    }
    let done = process.report(bytes, kind, words);
    let length = answer_owed(done.answered, pid, kind, line);
    let outcome = notify(done.told, pid, kind, reason, words, notice);
    ReportServed {
        outcome,
        line: length,
        process: done.process,
    }
}
