// 16-bit words as bytes, the nine words of a state vector as 18 bytes, low byte first, and flags as bytes.
#![tactic(auto)]

ghost use Rattle.std.specs.Prelude.{◌≡◌};
ghost use Rattle.lists.specs.Flag.{flag};
ghost use Rattle.lists.specs.Word.{high, low, word, low_first, vector_of};

use std::array;

pub fn high_byte(w: u16) -> u8
    ensures { result ≡ high w }
{
    w.to_be_bytes()[0]
}

pub fn low_byte(w: u16) -> u8
    ensures { result ≡ low w }
{
    w.to_le_bytes()[0]
}

// The word with this high and this low byte.
pub fn word_of(high_byte: u8, low_byte: u8) -> u16
    ensures { result ≡ word high_byte low_byte }
{
    u16::from_be_bytes([high_byte, low_byte])
}

// The bytes of a state vector.
pub fn vector_bytes(vector: [u16; 9]) -> [u8; 18]
    ensures { result ≡ low_first vector }
{
    let mut bytes = [0u8; 18];
    for (i, w) in vector.iter().enumerate() {
        bytes[2 * i] = low_byte(*w);
        bytes[2 * i + 1] = high_byte(*w);
    }
    bytes
}

// The state vector of these bytes.
pub fn vector_of(bytes: [u8; 18]) -> [u16; 9]
    ensures { result ≡ vector_of bytes }
{
    array::from_fn(|i| word_of(bytes[2 * i + 1], bytes[2 * i]))
}

// A flag as 0 or 1.
pub fn flag(on: bool) -> u8
    ensures { result ≡ flag on }
{
    u8::from(on)
}
