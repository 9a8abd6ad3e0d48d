// The eight entries of a process.
ghost use Rattle.std.specs.Prelude.{◌+◌, ◌≤◌, ◌<◌, length};
ghost use Rattle.lists.specs.Joined.{joined};
ghost use Rattle.lines.specs.Scan.{Put};
ghost use Rattle.display.specs.Line.{entry_text};

use breakpoints::Breakpoint;
use decimal::put_field;
use words::{flag, word_of};

// One of the eight entries, after a blank.
fn put_entry(b: Breakpoint, from: usize, out: &mut [u8]) -> usize
    requires { from + 36 ≤ length out.old }
    ensures put { Put from (entry_text b) out.old result out.new }
    ensures upper_bound { result ≤ from + 36 }
{
    let used = put_field(b' ', flag(b.setter != 0), from, out);
    let address = put_field(b':', b.address, used, out);
    let count = put_field(b':', b.count, address, out);
    let saved = put_field(b':', word_of(b.high, b.low), count, out);
    let lifted = put_field(b':', flag(b.lifted), saved, out);
    put_field(b':', b.setter, lifted, out)
}

// The eight entries.
pub(crate) fn put_entries(breaks: &[Breakpoint; 8], from: usize, out: &mut [u8]) -> usize
    requires { from + 288 ≤ length out.old }
    ensures put { Put from (joined entry_text breaks.now) out.old result out.new }
    ensures upper_bound { result ≤ from + 288 }
{
    let mut at = from;
    for b in breaks {
        at = put_entry(*b, at, out);
    }
    at
}
