// Writing a line.
ghost use Rattle.std.specs.Prelude.{◌≡◌, ◌+◌, ◌≤◌, length};
ghost use Rattle.lists.specs.Buffer.{overlay};
ghost use Rattle.fields.specs.Hex.{hex_digits, hex_numeral};
ghost use Rattle.fields.specs.Written.{Put, blank_numeral, written, line_bytes};

use digits::digit;

// No line is longer.
pub const LINE_BYTES: usize = 35;

// The four fields of a line: process, request, and two numbers.
#[derive(Clone, Copy)]
pub struct Fields {
    pub pid: u32,
    pub letter: u8,
    pub third: u32,
    pub fourth: u32,
}

// How many digits a number has.
fn digit_count(n: u32) -> usize
    ensures value { result ≡ length (hex_digits n) }
    ensures upper_bound { result ≤ 8 }
{
    let mut rest = n;
    for count in 1..8 {
        if rest < 16 {
            return count;
        }
        rest /= 16;
    }
    8
}

// The digits of a number from an index on, the last one first; the index after them.
fn put_digits(n: u32, at: usize, out: &mut [u8]) -> usize
    requires { at + 8 ≤ length out.old }
    ensures put { Put at (hex_digits n) out.old result out.new }
    ensures upper_bound { result ≤ at + 8 }
{
    let end = at + digit_count(n);
    let mut rest = n;
    for i in (at + 1..end).rev() {
        out[i] = digit((rest % 16) as u8);
        rest /= 16;
    }
    out[at] = digit(rest as u8);
    end
}

// A number from an index on; the index after it.
fn put_number(n: u32, at: usize, out: &mut [u8]) -> usize
    requires { at + 10 ≤ length out.old }
    ensures put { Put at (hex_numeral n) out.old result out.new }
    ensures upper_bound { result ≤ at + 10 }
{
    out[at] = b'0';
    out[at + 1] = b'x';
    put_digits(n, at + 2, out)
}

// A blank and a number from an index on; the index after them.
fn put_after_blank(n: u32, at: usize, out: &mut [u8]) -> usize
    requires { at + 11 ≤ length out.old }
    ensures put { Put at (blank_numeral n) out.old result out.new }
    ensures upper_bound { result ≤ at + 11 }
{
    out[at] = b' ';
    put_number(n, at + 1, out)
}

// The line of four fields into a buffer; its length.
pub fn write_fields(f: Fields, out: &mut [u8]) -> usize
    requires { line_bytes ≤ length out.old }
    ensures value { result ≡ length (written f) }
    ensures upper_bound { result ≤ line_bytes }
    ensures out_after { out.new ≡ overlay (written f) out.old }
{
    let at = put_number(f.pid, 0, out);
    out[at] = b' ';
    out[at + 1] = f.letter;
    let next = put_after_blank(f.third, at + 2, out);
    let end = put_after_blank(f.fourth, next, out);
    out[end] = b'\n';
    end + 1
}
