// The bytes of an entry, and of all entries of a process.
ghost use Rattle.std.specs.Prelude.{◌≡◌, ◌*◌, ◌≤◌, ◌<◌, length, take, drop};
ghost use Rattle.lists.specs.Buffer.{overlay};
ghost use Rattle.lists.specs.Joined.{joined};
ghost use Rattle.state_bytes.specs.Chunk.{chunks};
ghost use Rattle.state_bytes.specs.Entry.{entry_bytes, entry_of, entry_of_number, entries_bits, flags_formed};
ghost use Rattle.state_bytes.specs.Number.{u64_le_bytes};
ghost use Rattle.state_bytes.specs.Widths.{entry_count, entry_width, entries_width};

use crate::number::{put, u64_le};
use crate::widths::{ENTRY_BYTES, ENTRY_COUNT};
use breakpoints::Breakpoint;
use std::array;
use words::flag;

// The entry whose eight bytes are those of this number.
fn entry_of_number(w: u64) -> Breakpoint
    ensures { result ≡ entry_of_number w }
{
    Breakpoint {
        lifted: w % 2 == 1,
        setter: (w / 256 % 256) as u8,
        address: (w / 65536 % 65536) as u16,
        count: (w / 4294967296 % 65536) as u16,
        low: (w / 281474976710656 % 256) as u8,
        high: (w / 72057594037927936 % 256) as u8,
    }
}

// Entry k of these entries.
fn read_entry(entries: &[u8], k: usize) -> Breakpoint
    requires k_lt_entry_count { k < entry_count }
    requires entries_width_in_bounds { entries_width ≤ length entries.now }
    ensures { result ≡ entry_of (take entry_width (drop (entry_width * k) entries.now)) }
{
    let at = ENTRY_BYTES * k;
    let end = at + ENTRY_BYTES;
    entry_of_number(u64_le(&entries[at..end]))
}

// All eight entries.
pub(crate) fn read_entries(entries: &[u8]) -> [Breakpoint; 8]
    requires { entries_width ≤ length entries.now }
    ensures { result ≡ chunks entry_width entry_of entry_count entries.now }
{
    array::from_fn(|k| read_entry(entries, k))
}

// The number whose bytes are those of this entry.
fn entry_number(entry: Breakpoint) -> u64
    ensures { u64_le_bytes result ≡ entry_bytes entry }
{
    u64::from(flag(entry.lifted))
        + u64::from(entry.setter) * 256
        + u64::from(entry.address) * 65536
        + u64::from(entry.count) * 4294967296
        + u64::from(entry.low) * 281474976710656
        + u64::from(entry.high) * 72057594037927936
}

// Writes this entry.
fn put_entry(entry: Breakpoint, bytes: &mut [u8])
    requires { entry_width ≤ length bytes.old }
    ensures { bytes.new ≡ overlay (entry_bytes entry) bytes.old }
{
    put(entry_number(entry).to_le_bytes(), bytes);
}

// Writes all eight entries.
pub(crate) fn put_entries(entries: &[Breakpoint; 8], bytes: &mut [u8])
    requires { entries_width ≤ length bytes.old }
    ensures { bytes.new ≡ overlay (joined entry_bytes entries.now) bytes.old }
{
    for (k, entry) in entries.iter().enumerate() {
        put_entry(*entry, &mut bytes[ENTRY_BYTES * k..]);
    }
}

// The bits that are set in one of the entries: each is read once for every test of them.
pub(crate) fn entries_bits(entries: &[u8]) -> u64
    requires { entries_width ≤ length entries.now }
    ensures { result ≡ entries_bits entries.now }
{
    let mut bits = 0;
    for k in 0..ENTRY_COUNT {
        let at = ENTRY_BYTES * k;
        let end = at + ENTRY_BYTES;
        bits |= u64_le(&entries[at..end]);
    }
    bits
}

// No bit but the lowest is set in the first byte of an entry.
pub(crate) fn flags_formed(bits: u64) -> bool
    ensures { result ≡ flags_formed bits }
{
    bits % 256 <= 1
}
