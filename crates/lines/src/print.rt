// Bytes as text.
ghost use Rattle.std.specs.Prelude.{◌≡◌, ◌+◌, ◌*◌, ◌≤◌, length};
ghost use Rattle.lists.specs.Buffer.{overlay};
ghost use Rattle.lines.specs.Hex.{pair, pair_at, pairs, spaced, spaced_or_dash, pairs_line};

use crate::text::put;
use digits::digit;

// The two digits of a byte.
fn pair(b: u8) -> [u8; 2]
    ensures { result ≡ pair b }
{
    [digit(b / 16), digit(b % 16)]
}

// A blank and the two digits of a byte, from an index on.
#[tactic(auto, unfolding(crate::specs::Hex::pair_at, crate::specs::Scan::kept))]
fn put_pair(b: u8, at: usize, out: &mut [u8])
    requires { at + 3 ≤ length out.old }
    ensures { out.new ≡ pair_at b at out.old }
{
    let [high, low] = pair(b);
    out[at] = b' ';
    out[at + 1] = high;
    out[at + 2] = low;
}

// Each byte after a blank.
fn put_spaced(bytes: &[u8], out: &mut [u8])
    requires { 3 * length bytes.now ≤ length out.old }
    ensures { out.new ≡ overlay (spaced bytes.now) out.old }
{
    for (i, b) in bytes.iter().enumerate() {
        put_pair(*b, 3 * i, out);
    }
}

// Each byte after a blank, or a dash where there is none; the length of the text.
pub fn put_bytes(bytes: &[u8], out: &mut [u8]) -> usize
    requires { 2 + 3 * length bytes.now ≤ length out.old }
    ensures value { result ≡ length (spaced_or_dash bytes.now) }
    ensures out_after { out.new ≡ overlay (spaced_or_dash bytes.now) out.old }
{
    if bytes.is_empty() {
        out[0] = b' ';
        out[1] = b'-';
        return 2;
    }
    put_spaced(bytes, out);
    3 * bytes.len()
}

// The pairs of one or more bytes, parted by single blanks.
fn put_parted(bytes: &[u8], out: &mut [u8])
    requires { (1 ≤ length bytes.now) × (3 * length bytes.now ≤ length out.old) }
    ensures { out.new ≡ overlay (pairs bytes.now) out.old }
{
    put(&pair(bytes[0]), 0, out);
    put_spaced(&bytes[1..], &mut out[2..]);
}

// The bytes as pairs parted by single blanks, as a line; the length of the line.
pub fn put_pairs(bytes: &[u8], out: &mut [u8]) -> usize
    requires { 3 * length bytes.now + 1 ≤ length out.old }
    ensures value { result ≡ length (pairs_line bytes.now) }
    ensures upper_bound { result ≤ length out.old }
    ensures out_after { out.new ≡ overlay (pairs_line bytes.now) out.old }
{
    if bytes.is_empty() {
        out[0] = b'\n';
        return 1;
    }
    put_parted(bytes, out);
    let last = 3 * bytes.len() - 1;
    out[last] = b'\n';
    last + 1
}
