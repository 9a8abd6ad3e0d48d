// The block of words that an acknowledgement carries.
ghost use Rattle.std.specs.Prelude.{◌≡◌, true, ◌%◌, ◌≤◌};
ghost use Rattle.packets.specs.Block.{may_ask, sendable, none_or_sendable, length_to_send, base_of, half, halved_to_fit, block_for};

use crate::data::asked;
use crate::units::{ByteCount, WordAddress, WordCount};

// Whether a block of so many words may be asked for.
fn may_ask(n: u16) -> bool
    ensures { result ≡ may_ask n }
{
    matches!(n, 1 | 2 | 4 | 8 | 16 | 32 | 64 | 128 | 256)
}

// How many words are sent where so many are asked for, if they fit.
fn length_to_send(asked: WordCount) -> WordCount
    ensures { result ≡ length_to_send asked }
{
    if may_ask(asked.0) {
        WordCount(asked.0.min(32))
    } else {
        WordCount(0)
    }
}

// How far a word address is over a multiple of this length: a remainder by a constant is a mask, by a variable it is a division.
fn remainder(a: u16, length: u16) -> u16
    requires { sendable length ≡ true }
    ensures value { result ≡ a % length }
    ensures upper_bound { result ≤ a }
{
    match length {
        1 => 0,
        2 => a % 2,
        4 => a % 4,
        8 => a % 8,
        16 => a % 16,
        _ => a % 32,
    }
}

// Where the block of so many words around a word begins.
fn base_of(at: WordAddress, count: WordCount) -> WordAddress
    requires { sendable count.0 ≡ true }
    ensures { result ≡ base_of at count }
{
    WordAddress(at.0 - remainder(at.0, count.0))
}

// Half as many words.
fn half(count: WordCount) -> WordCount
    ensures { result ≡ half count }
{
    WordCount(count.0 / 2)
}

// The block of this length, or half of it, and so on, that a process of this size holds: where it begins, and how long it is; or none.
fn halve_to_fit(
    size: ByteCount,
    at: WordAddress,
    longest: WordCount,
) -> Option<(WordAddress, WordCount)>
    requires { none_or_sendable longest.0 ≡ true }
    ensures { result ≡ halved_to_fit 6 size at longest }
{
    let mut count = longest;
    // No for: it counts nothing, and halves until it fits.
    while 0 < count.0 {
        let base = base_of(at, count);
        if size.holds(base, count) {
            return Some((base, count));
        }
        count = half(count);
    }
    None
}

// The block to send for a packet with these data words about a word of a process of this size.
pub fn block_to_send(
    size: ByteCount,
    at: WordAddress,
    words: &[u16],
) -> Option<(WordAddress, WordCount)>
    ensures { result ≡ block_for size at words.now }
{
    let longest = length_to_send(asked(words));
    halve_to_fit(size, at, longest)
}
