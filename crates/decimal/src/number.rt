// The numbers of a line: decimal, without sign or leading zeros, each after a single blank.
ghost use Rattle.std.specs.Prelude.{◌≡◌, ◌-◌, ◌<◌, ◌≤◌, length, take, drop, MatchOption};
ghost use Rattle.decimal.specs.Numeral.{digit_of, plain};
ghost use Rattle.decimal.specs.Read.{wrong, begun, checked, number_at, behind, ends_line};

// What stands before a number.
const BLANK: u8 = b' ';

// A number, or nothing where it or one before it was wrong; and the index after it.
// A flag and no Option: what a line says (process_in and its like in the definitions of calls) is written by `value` and `next` of a number
// that may be wrong.
#[derive(Clone, Copy)]
pub struct Number {
    pub ok: bool,
    pub value: usize,
    pub next: usize,
}

// The value of a digit.
fn digit(c: u8) -> Option<usize>
    ensures { MatchOption result (digit_of c ≡ 10) (λ v. (v ≡ digit_of c) × (v < 10)) }
{
    match c {
        b'0'..=b'9' => Some((c - b'0') as usize),
        _ => None,
    }
}

// Whether digits between two indices are a numeral: one at least, and no zero before others.
fn is_plain(line: &[u8], at: usize, end: usize) -> bool
    requires { end ≤ length line.now }
    ensures { result ≡ plain (take (end - at) (drop at line.now)) }
{
    at < end && (end - at == 1 || line[at] != b'0')
}

impl Number {
    // Nothing was read yet, and the first number is to stand here.
    pub fn start(at: usize) -> Number
        ensures { result ≡ begun at }
    {
        Number {
            ok: true,
            value: 0,
            next: at,
        }
    }

    fn wrong() -> Number
        ensures { result ≡ wrong }
    {
        Number {
            ok: false,
            value: 0,
            next: 0,
        }
    }

    // The number whose digits stand between two indices.
    fn checked(line: &[u8], at: usize, end: usize, value: usize) -> Number
        requires { end ≤ length line.now }
        ensures { result ≡ checked (plain (take (end - at) (drop at line.now))) value end }
    {
        if !is_plain(line, at, end) {
            return Number::wrong();
        }
        Number {
            ok: true,
            value,
            next: end,
        }
    }

    // The digits from an index on, as a number of at most so much.
    fn digits(line: &[u8], at: usize, most: usize) -> Number
        requires most_bound { most ≤ 4294967295 }
        requires at_in_bounds { at ≤ length line.now }
        ensures { result ≡ number_at most line.now at }
    {
        let mut value = 0;
        for i in at..line.len() {
            let Some(v) = digit(line[i]) else {
                return Number::checked(line, at, i, value);
            };
            value = 10 * value + v;
            if most < value {
                return Number::wrong();
            }
        }
        Number::checked(line, at, line.len(), value)
    }

    // The next number: a blank and digits.
    pub fn then(self, line: &[u8], most: usize) -> Number
        requires { most ≤ 4294967295 }
        ensures value { result ≡ behind most line.now self }
        ensures value_le_most { result.value ≤ most }
    {
        let at = self.next;
        if !self.ok || line.len() <= at || line[at] != BLANK {
            return Number::wrong();
        }
        Number::digits(line, at + 1, most)
    }

    // Whether the line ends after it.
    pub fn ends(self, line: &[u8]) -> bool
        ensures { result ≡ ends_line line.now self }
    {
        self.ok && self.next == line.len()
    }
}
