// Reading a number: `0x` and lower-case hex digits without leading zeros, of 32 bits.
ghost use Rattle.std.specs.Prelude.{◌≡◌, ◌≤◌, length};
ghost use Rattle.fields.specs.Hex.{plain, digits_at, number_at, number_after};

use digits::digit_value;

// The greatest number that one digit more leaves within 32 bits.
const MOST_BEFORE: u32 = 0x0fff_ffff;

// A number that was read, and the index after it.
#[derive(Clone, Copy)]
pub struct Number {
    pub value: u32,
    pub next: usize,
}

// Whether digits are those of a number: one at least, and no zero before others.
#[tactic(auto, unfolding(crate::specs::Hex::plain))]
fn is_plain(digits: &[u8]) -> bool
    ensures { result ≡ plain digits.now }
{
    match digits {
        [] => false,
        [_] => true,
        [first, ..] => *first != b'0',
    }
}

impl Number {
    // The digits from an index on, as many as there are.
    fn digits(text: &[u8], at: usize) -> Option<Number>
        requires { at ≤ length text.now }
        ensures { result ≡ digits_at text.now at }
    {
        let mut value: u32 = 0;
        let mut next = at;
        for c in &text[at..] {
            let Some(v) = digit_value(*c) else {
                break;
            };
            if value > MOST_BEFORE {
                return None;
            }
            value = 16 * value + u32::from(v);
            next += 1;
        }
        is_plain(&text[at..next]).then_some(Number { value, next })
    }

    // The number at an index.
    #[tactic(auto, unfolding(crate::specs::Hex::number_at))]
    pub fn at(text: &[u8], at: usize) -> Option<Number>
        requires { at ≤ length text.now }
        ensures { result ≡ number_at text.now at }
    {
        match &text[at..] {
            [b'0', b'x', ..] => Number::digits(text, at + 2),
            _ => None,
        }
    }

    // The number after a blank at an index.
    #[tactic(auto, unfolding(crate::specs::Hex::number_after))]
    pub fn after(text: &[u8], at: usize) -> Option<Number>
        ensures { result ≡ number_after text.now at }
    {
        if text.get(at) != Some(&b' ') {
            return None;
        }
        Number::at(text, at + 1)
    }
}
