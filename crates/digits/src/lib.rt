// The lower-case hex digits, as characters.
#![tactic(auto)]

ghost use Rattle.std.specs.Prelude.{◌≡◌, ◌<◌, MatchOption};
ghost use Rattle.digits.specs.Digit.{digit, value};

// The digit of a number under 16.
#[tactic(auto, unfolding(crate::specs::Digit::digit))]
pub fn digit(v: u8) -> u8
    requires { v < 16 }
    ensures { result ≡ digit v }
{
    if v < 10 { b'0' + v } else { b'a' - 10 + v }
}

// The number of a digit, or `None` where the character is none.
#[tactic(auto, unfolding(crate::specs::Digit::value))]
pub fn digit_value(c: u8) -> Option<u8>
    ensures { MatchOption result (value c ≡ 16) (λ v. (v ≡ value c) × (v < 16)) }
{
    match c {
        b'0'..=b'9' => Some(c - b'0'),
        b'a'..=b'f' => Some(c - b'a' + 10),
        _ => None,
    }
}
