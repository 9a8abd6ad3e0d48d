// A process as a line: its record, and where its bytes begin.
ghost use Rattle.std.specs.Prelude.{◌≡◌, ◌+◌, ◌≤◌, length};
ghost use Rattle.lists.specs.Buffer.{overlay};
ghost use Rattle.lists.specs.Joined.{joined};
ghost use Rattle.lines.specs.Scan.{Put};
ghost use Rattle.display.specs.Line.{word_text, head_text, named, owed_shown, owed_text, waiting_text, go_text, begin_shown, record_text, process_line};

use crate::entry::put_entries;
use decimal::{Width, put_field, put_number};
use lines::{put, put_mark};
use process::Process;
use run_state::Run;
use session::{Go, Owed};
use words::flag;

// There, host and run state.
fn put_head(there: bool, host: u8, run: Run, out: &mut [u8]) -> usize
    requires { 17 ≤ length out.old }
    ensures put { Put 0 (head_text there host run) out.old result out.new }
    ensures upper_bound { result ≤ 17 }
{
    let first = put_number(flag(there), 0, out);
    let second = put_field(b' ', host, first, out);
    put_field(b' ', run.number(), second, out)
}

// The nine words, each after a blank.
fn put_words(words: [u16; 9], from: usize, out: &mut [u8]) -> usize
    requires { from + 54 ≤ length out.old }
    ensures put { Put from (joined word_text words) out.old result out.new }
    ensures upper_bound { result ≤ from + 54 }
{
    let mut at = from;
    for word in &words {
        at = put_field(b' ', *word, at, out);
    }
    at
}

// A number after its name.
fn put_named<T: Width>(name: &[u8], n: T, from: usize, out: &mut [u8]) -> usize
    requires { from + length name.now + 1 + T.most_digits ≤ length out.old }
    ensures put { Put from (named name.now (T.number n)) out.old result out.new }
    ensures upper_bound { result ≤ from + length name.now + 1 + T.most_digits }
{
    let at = put(name, from, out);
    put_field(b' ', n, at, out)
}

// The letter of the request whose answer is owed, or a dash.
fn owed_shown(owed: Owed) -> u8
    ensures { result ≡ owed_shown owed }
{
    if owed.owes() { owed.letter() } else { b'-' }
}

// The owed answer after its name.
fn put_owed(owed: Owed, from: usize, out: &mut [u8]) -> usize
    requires { from + 7 ≤ length out.old }
    ensures put { Put from (owed_text owed) out.old result out.new }
    ensures upper_bound { result ≤ from + 7 }
{
    let at = put(b" owed ", from, out);
    put_mark(owed_shown(owed), at, out);
    at + 1
}

// ID and ticks of a Go, parted by a colon.
fn put_waiting(go: Go, from: usize, out: &mut [u8]) -> usize
    requires { from + 16 ≤ length out.old }
    ensures put { Put from (waiting_text go) out.old result out.new }
    ensures upper_bound { result ≤ from + 16 }
{
    let at = put_number(go.id, from, out);
    put_field(b':', go.ticks, at, out)
}

// The Go that waits after its name, or a dash.
fn put_go(go: Go, from: usize, out: &mut [u8]) -> usize
    requires { from + 20 ≤ length out.old }
    ensures put { Put from (go_text go) out.old result out.new }
    ensures upper_bound { result ≤ from + 20 }
{
    let at = put(b" go ", from, out);
    if go.waits {
        put_waiting(go, at, out)
    } else {
        put_mark(b'-', at, out);
        at + 1
    }
}

// All of a record.
fn put_record(p: Process, out: &mut [u8]) -> usize
    requires { 421 ≤ length out.old }
    ensures put { Put 0 (record_text p) out.old result out.new }
    ensures upper_bound { result ≤ 421 }
{
    let session = p.session;
    let head = put_head(p.there, p.host, p.run, out);
    let words = put_words(p.vector, head, out);
    let entries = put_entries(&p.breaks, words, out);
    let size = put_named(b" size", p.size, entries, out);
    let watcher = put_named(b" watcher", session.watcher, size, out);
    let set = put_named(b" set", p.number, watcher, out);
    let answer = put_owed(session.owed, set, out);
    put_go(session.go, answer, out)
}

// Where the bytes of a process begin; 0 where it is absent.
fn begin_shown(there: bool, start: u16) -> u16
    ensures { result ≡ begin_shown there start }
{
    if there { start } else { 0 }
}

// All of a record and where the bytes of its process begin, as a line; the length of the line.
pub fn put_process(p: Process, start: u16, out: &mut [u8]) -> usize
    requires { 434 ≤ length out.old }
    ensures value { result ≡ length (process_line p start) }
    ensures upper_bound { result ≤ length out.old }
    ensures out_after { out.new ≡ overlay (process_line p start) out.old }
{
    let record = put_record(p, out);
    let end = put_named(b" begin", begin_shown(p.there, start), record, out);
    put_mark(b'\n', end, out);
    end + 1
}
