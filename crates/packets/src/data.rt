// The data words of a packet, by their place.
ghost use Rattle.std.specs.Prelude.{◌≡◌, ◌≤◌, length};
ghost use Rattle.packets.specs.Data.{address_of, value_of, asked};

use crate::units::{WordAddress, WordCount};

// The word that a Store or a Fetch is about: its first data word.
pub fn address_of(words: &[u16]) -> WordAddress
    requires { 1 ≤ length words.now }
    ensures { result ≡ address_of words.now }
{
    WordAddress(words[0])
}

// What a Store puts there: its second data word.
pub fn value_of(words: &[u16]) -> u16
    requires { 2 ≤ length words.now }
    ensures { result ≡ value_of words.now }
{
    words[1]
}

// How many words are asked for: the third data word, if there is one.
pub(crate) fn asked(words: &[u16]) -> WordCount
    ensures { result ≡ asked words.now }
{
    WordCount(words.get(2).copied().unwrap_or(0))
}
