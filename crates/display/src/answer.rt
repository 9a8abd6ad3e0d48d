// The line that answers a call.
ghost use Rattle.std.specs.Prelude.{◌≡◌, ◌+◌, ◌*◌, ◌≤◌, length};
ghost use Rattle.lists.specs.Buffer.{overlay};
ghost use Rattle.lines.specs.Hex.{spaced_or_dash};
ghost use Rattle.lines.specs.Scan.{Put};
ghost use Rattle.display.specs.Answer.{answer_line};

use decimal::put_number;
use lines::{put_bytes, put_mark};

// The bytes, or a dash where there is none, from an index on; the index after them.
fn put_reply(bytes: &[u8], from: usize, out: &mut [u8]) -> usize
    requires { from + 2 + 3 * length bytes.now ≤ length out.old }
    ensures put { Put from (spaced_or_dash bytes.now) out.old result out.new }
    ensures upper_bound { result ≤ from + 2 + 3 * length bytes.now }
{
    from + put_bytes(bytes, &mut out[from..])
}

// The number and the bytes, or a dash where there is none, as a line; the length of the line.
pub fn put_answer(number: u8, bytes: &[u8], out: &mut [u8]) -> usize
    requires { 8 + 3 * length bytes.now ≤ length out.old }
    ensures value { result ≡ length (answer_line number bytes.now) }
    ensures upper_bound { result ≤ length out.old }
    ensures out_after { out.new ≡ overlay (answer_line number bytes.now) out.old }
{
    let at = put_number(number, 0, out);
    let end = put_reply(bytes, at, out);
    put_mark(b'\n', end, out);
    end + 1
}
