// The calls that change state or memory, each with the line that it prints.
ghost use Rattle.std.specs.Prelude.{◌≡◌, ◌++◌, ◌+◌, ◌*◌, ◌≤◌, ◌<◌, length, set};
ghost use Rattle.lines.specs.declared.scan.Phase.TheVariants.{Open};
ghost use Rattle.lines.specs.Scan.{bytes_of};
ghost use Rattle.decimal.specs.Numeral.{numeral};
ghost use Rattle.calls.specs.Effect.{longest_text, Prints, Does};
ghost use Rattle.calls.specs.Meaning.{zero_buffer, request_made, request_effect, report_made, report_effect, start_made, start_effect, store_effect};

use crate::listing::Listing;
use crate::number::{Report, read_report};
use crate::show::{answer_unknown, ends_within, place};
use crate::text::{Shown, put_beside, zero_line};
use crate::{KEPT, MEMORY, MESSAGE, STATE};
use decimal::{Number, put_number};
use display::put_answer;
use format::number_of;
use gateway::{fresh_start, notice_length, reply_length, report, request};
use lines::{Phase, Scan, at_most, put};
use state_bytes::read_extent_at;

// The buffer that is lent to a call for a reply or a notice.
#[tactic(auto, unfolding(crate::specs::Meaning::zero_buffer))]
fn zero_buffer() -> [u8; MESSAGE]
    ensures { result ≡ zero_buffer }
{
    [0u8; MESSAGE]
}

// Makes a request, and puts its answer as a line.
fn make_request(
    state: &mut [u8; STATE],
    memory: &mut [u8; MEMORY],
    message: &[u8],
    out: &mut [u8],
) -> usize
    requires { longest_text ≤ length out.old }
    ensures { Does (request_made message.now state.old memory.old) result state.new memory.new out.old out.new }
{
    let mut reply = zero_buffer();
    let outcome = request(state, memory, message, &mut reply);
    let n = at_most(reply_length(outcome), &reply);
    put_answer(number_of(outcome), &reply[..n], out)
}

// request HEX HEX ..: all of its pairs led to this phase, and these are its first ones, more than the longest message has or all.
pub fn answer_request(
    phase: Phase,
    state: &mut [u8; STATE],
    memory: &mut [u8; MEMORY],
    pairs: &[u8],
    out: &mut [u8],
) -> usize
    requires { longest_text ≤ length out.old }
    ensures { Does (request_effect phase (bytes_of Open pairs.now) state.old memory.old) result state.new memory.new out.old out.new }
{
    if !phase.is_full() {
        return answer_unknown(state, memory, out);
    }
    let mut message = [0u8; KEPT];
    let scan = Scan::new().part(pairs, &mut message);
    let n = at_most(scan.len, &message);
    make_request(state, memory, &message[..n], out)
}

// Makes a report of the machine, and puts its answer as a line, with the text line that it answers in the place of the newline.
fn make_report(
    shown: Shown,
    state: &mut [u8; STATE],
    memory: &mut [u8; MEMORY],
    read: Report,
    out: &mut [u8],
) -> usize
    requires { longest_text ≤ length out.old }
    ensures { Does (report_made shown read.process read.kind read.reason read.words state.old memory.old) result state.new memory.new out.old out.new }
{
    let mut notice = zero_buffer();
    let mut line = zero_line();
    let told = report(
        state,
        memory,
        read.process,
        read.kind,
        read.reason,
        read.words,
        &mut notice,
        &mut line,
    );
    let n = at_most(notice_length(told.outcome), &notice);
    let end = put_answer(number_of(told.outcome), &notice[..n], out);
    let k = at_most(told.line, &line);
    put_beside(shown, &line[..k], end - 1, out)
}

// report P KIND REASON W0 .. W8
pub fn answer_report(
    shown: Shown,
    state: &mut [u8; STATE],
    memory: &mut [u8; MEMORY],
    line: &[u8],
    out: &mut [u8],
) -> usize
    requires { longest_text ≤ length out.old }
    ensures { Does (report_effect shown line.now state.old memory.old) result state.new memory.new out.old out.new }
{
    let Some(read) = read_report(line) else {
        return answer_unknown(state, memory, out);
    };
    make_report(shown, state, memory, read, out)
}

// The number of a call, and what follows it.
pub(crate) fn put_numbered(number: u8, rest: &[u8], out: &mut [u8]) -> usize
    requires { 5 + length rest.now ≤ length out.old }
    ensures { Prints (numeral number ++ rest.now) result out.old out.new }
{
    let at = put_number(number as u16, 0, out);
    put(rest, at, out)
}

// Makes a fresh start, and puts the line of a refused one.
fn make_start(
    state: &mut [u8; STATE],
    memory: &mut [u8; MEMORY],
    listing: Listing,
    out: &mut [u8],
) -> usize
    requires { longest_text ≤ length out.old }
    ensures { Does (start_made listing.there listing.sizes listing.door state.old memory.old) result state.new memory.new out.old out.new }
{
    let started = fresh_start(listing.there, listing.sizes, listing.door, state);
    let number = number_of(started);
    if number != 0 {
        return put_numbered(number, b"\n", out);
    }
    memory.fill(0);
    0
}

// start P:SIZE P .. pup P
pub fn answer_start(
    state: &mut [u8; STATE],
    memory: &mut [u8; MEMORY],
    line: &[u8],
    out: &mut [u8],
) -> usize
    requires { longest_text ≤ length out.old }
    ensures { Does (start_effect line.now state.old memory.old) result state.new memory.new out.old out.new }
{
    let word = at_most(5, line);
    let listing = Listing::new().part(&line[word..]);
    if !listing.place.is_complete() {
        return answer_unknown(state, memory, out);
    }
    make_start(state, memory, listing, out)
}

// Stores a byte at an index, if memory reaches so far.
fn store(memory: &mut [u8], at: usize, byte: u8)
    ensures { memory.new ≡ set memory.old at byte }
{
    if at < memory.len() {
        memory[at] = byte;
    }
}

// store P ADDRESS BYTE
pub fn answer_store(state: &[u8; STATE], memory: &mut [u8], line: &[u8], out: &mut [u8]) -> usize
    requires { longest_text ≤ length out.old }
    ensures { Does (store_effect line.now state.now memory.old) result state.now memory.new out.old out.new }
{
    let process = Number::start(5).then(line, 7);
    let address = process.then(line, 4095);
    let byte = address.then(line, 255);
    let size = read_extent_at(state, process.value) as usize;
    if !ends_within(byte, line, address.value + 1, size) {
        return answer_unknown(state, memory, out);
    }
    let at = place(state, process.value, address.value);
    store(memory, at, byte.value as u8);
    put(b"ok\n", 0, out)
}
