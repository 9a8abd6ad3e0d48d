// The bytes of a process: its head, the nine words, the eight entries.
ghost use Rattle.std.specs.Prelude.{◌≡◌, ◌≤◌, length};
ghost use Rattle.lists.specs.Buffer.{overlay};
ghost use Rattle.lists.specs.Word.{vector_of};
ghost use Rattle.process.specs.Local.{extent};
ghost use Rattle.state_bytes.specs.Process.{head_bytes, size_of, process_bytes, process_of, head_sound};
ghost use Rattle.state_bytes.specs.Session.{go_of, session_of, session_fits};
ghost use Rattle.state_bytes.specs.Widths.{head_width, vector_width, process_width};

use crate::entry::{put_entries, read_entries};
use crate::number::{put, u32_le};
use crate::widths::{
    ENTRIES_AT, HOST_AT, ID_AT, NUMBER_AT, OWED_AT, RUN_AT, SIZE_AT, THERE_AT, TICKS_AT, VECTOR_AT,
    WAITS_AT, WATCHER_AT,
};
use process::{Process, valid_size};
use run_state::{is_run_number, run_of};
use session::{Go, LAST_OWED_NUMBER, Session, owed_of};
use std::array;
use words::{flag, high_byte, low_byte, vector_bytes, word_of};

// The nine words, where they lie: `vector_of` of words takes an array by value, and a copy of the bytes costs stack.
fn read_vector(bytes: &[u8]) -> [u16; 9]
    requires { vector_width ≤ length bytes.now }
    ensures { result ≡ vector_of bytes.now }
{
    array::from_fn(|i| word_of(bytes[2 * i + 1], bytes[2 * i]))
}

// The size in the head. Here and below a head is a slice, and no array: it is a part of the bytes of a state, and an array of it would be an Option
// that each caller has to open.
fn read_size(bytes: &[u8]) -> u16
    requires { head_width ≤ length bytes.now }
    ensures { result ≡ size_of bytes.now }
{
    word_of(bytes[SIZE_AT + 1], bytes[SIZE_AT])
}

// The Go in the head.
fn read_go(bytes: &[u8]) -> Go
    requires { head_width ≤ length bytes.now }
    ensures { result ≡ go_of bytes.now }
{
    let id = u32_le(&bytes[ID_AT..]);
    Go {
        waits: bytes[WAITS_AT] % 2 == 1,
        ticks: bytes[TICKS_AT],
        id,
    }
}

// The session in the head.
fn read_session(bytes: &[u8]) -> Session
    requires { head_width ≤ length bytes.now }
    ensures { result ≡ session_of bytes.now }
{
    let owed = owed_of(bytes[OWED_AT]);
    let go = read_go(bytes);
    Session {
        owed,
        watcher: bytes[WATCHER_AT],
        go,
    }
}

// How many bytes of memory the process has: its size, or none where it is absent.
pub(crate) fn read_extent(bytes: &[u8]) -> u16
    requires { head_width ≤ length bytes.now }
    ensures { result ≡ extent (process_of bytes.now) }
{
    if bytes[THERE_AT] % 2 == 0 {
        0
    } else {
        read_size(bytes)
    }
}

// The record that these bytes are the form of.
pub(crate) fn read_process(bytes: &[u8]) -> Process
    requires { process_width ≤ length bytes.now }
    ensures { result ≡ process_of bytes.now }
{
    let vector = read_vector(&bytes[VECTOR_AT..ENTRIES_AT]);
    let breaks = read_entries(&bytes[ENTRIES_AT..]);
    let run = run_of(bytes[RUN_AT]);
    let size = read_size(bytes);
    let session = read_session(bytes);
    Process {
        there: bytes[THERE_AT] % 2 == 1,
        host: bytes[HOST_AT],
        run,
        vector,
        breaks,
        size,
        session,
        number: bytes[NUMBER_AT],
    }
}

// Writes whether it is there, host, run state, size, number of breakpoints and session.
fn put_head(p: &Process, bytes: &mut [u8])
    requires { head_width ≤ length bytes.old }
    ensures { bytes.new ≡ overlay (head_bytes p.now) bytes.old }
{
    let Session { owed, watcher, go } = p.session;
    bytes[THERE_AT] = flag(p.there);
    bytes[HOST_AT] = p.host;
    bytes[RUN_AT] = p.run.number();
    bytes[SIZE_AT] = low_byte(p.size);
    bytes[SIZE_AT + 1] = high_byte(p.size);
    bytes[NUMBER_AT] = p.number;
    bytes[OWED_AT] = owed.number();
    bytes[WATCHER_AT] = watcher;
    bytes[WAITS_AT] = flag(go.waits);
    bytes[TICKS_AT] = go.ticks;
    put(go.id.to_le_bytes(), &mut bytes[ID_AT..]);
}

// Writes the record.
pub(crate) fn put_process(p: Process, bytes: &mut [u8])
    requires { process_width ≤ length bytes.old }
    ensures p_len { length (process_bytes p) ≡ process_width }
    ensures bytes_after { bytes.new ≡ overlay (process_bytes p) bytes.old }
{
    put_head(&p, bytes);
    put(vector_bytes(p.vector), &mut bytes[VECTOR_AT..]);
    put_entries(&p.breaks, &mut bytes[ENTRIES_AT..]);
}

// The session in the head is formed, and the host there may have it. Any host may have none, and most have none: that is asked first.
fn session_fits(bytes: &[u8]) -> bool
    requires { head_width ≤ length bytes.now }
    ensures { result ≡ session_fits bytes.now }
{
    if bytes[OWED_AT] == 0 && bytes[WATCHER_AT] == 0 && bytes[WAITS_AT] == 0 {
        return true;
    }
    bytes[OWED_AT] <= LAST_OWED_NUMBER
        && bytes[WAITS_AT] <= 1
        && read_session(bytes).sound(bytes[HOST_AT])
}

// The run state is one of the six, the size is valid, the session fits, and the process is there, or absent with no host.
pub(crate) fn head_sound(bytes: &[u8]) -> bool
    requires { head_width ≤ length bytes.now }
    ensures { result ≡ head_sound bytes.now }
{
    is_run_number(bytes[RUN_AT])
        && valid_size(read_size(bytes))
        && session_fits(bytes)
        && (bytes[THERE_AT] == 1 || (bytes[THERE_AT] == 0 && bytes[HOST_AT] == 0))
}
