// Names by their number: a table has a name at each index.
ghost use Rattle.std.specs.Prelude.{ℕ, ◌+◌, ◌≤◌, length};
ghost use Rattle.lines.specs.Scan.{Put};
ghost use Rattle.sentence.specs.Name.{name_at, named_in, name_room};

use decimal::put_number;
use lines::put;

// No name is longer than this.
pub const NAME_ROOM: usize = 20;

// The name of a number in a table; of a number that has none, the number itself after the text for others. The index after it.
pub(crate) fn put_name(
    number: u8,
    names: &[&str],
    other: &str,
    from: usize,
    out: &mut [u8],
) -> usize
    requires by_index { (n : ℕ) → length (name_at names.now n) ≤ name_room }
    requires other_len_bound { length other.now + 5 ≤ name_room }
    requires name_room_in_bounds { from + name_room ≤ length out.old }
    ensures put { Put from (named_in names.now other.now number) out.old result out.new }
    ensures upper_bound { result ≤ from + name_room }
{
    match names.get(number as usize) {
        Some(name) => put(name.as_bytes(), from, out),
        None => {
            let at = put(other.as_bytes(), from, out);
            put_number(number, at, out)
        }
    }
}
