// Writing a number.
ghost use Rattle.std.specs.Prelude.{◌+◌, ◌≤◌, length};
ghost use Rattle.lines.specs.Scan.{Put};
ghost use Rattle.decimal.specs.Numeral.{numeral, field};

use crate::width::Width;
use lines::{put, put_mark};

// The numeral of a number from an index on, where there is room for it; the index after it.
fn put_numeral(n: u64, at: usize, out: &mut [u8]) -> usize
    requires { at + length (numeral n) ≤ length out.old }
    ensures { Put at (numeral n) out.old result out.new }
{
    let mut text = [0u8; 20];
    let k = io::decimal(n, &mut text);
    put(&text[..k], at, out)
}

// A number from an index on; the index after it.
pub fn put_number<T: Width>(n: T, at: usize, out: &mut [u8]) -> usize
    requires { at + T.most_digits ≤ length out.old }
    ensures put { Put at (numeral (T.number n)) out.old result out.new }
    ensures upper_bound { result ≤ at + T.most_digits }
{
    put_numeral(n.wide(), at, out)
}

// A mark and a number, from an index on; the index after them.
pub fn put_field<T: Width>(mark: u8, n: T, at: usize, out: &mut [u8]) -> usize
    requires { at + 1 + T.most_digits ≤ length out.old }
    ensures put { Put at (field mark (T.number n)) out.old result out.new }
    ensures upper_bound { result ≤ at + 1 + T.most_digits }
{
    put_mark(mark, at, out);
    put_numeral(n.wide(), at + 1, out)
}
