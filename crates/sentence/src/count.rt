// A number of bytes.
ghost use Rattle.std.specs.Prelude.{◌+◌, ◌≤◌, length};
ghost use Rattle.lines.specs.Scan.{Put};
ghost use Rattle.sentence.specs.Count.{count_text};

use decimal::put_number;
use lines::put;

// So many bytes, as `1 byte` or `16 bytes`; the index after it.
pub(crate) fn put_count(n: u64, from: usize, out: &mut [u8]) -> usize
    requires { from + 26 ≤ length out.old }
    ensures put { Put from (count_text n) out.old result out.new }
    ensures upper_bound { result ≤ from + 26 }
{
    let at = put_number(n, from, out);
    if n == 1 {
        put(b" byte", at, out)
    } else {
        put(b" bytes", at, out)
    }
}
