// The words of an acknowledgement.
ghost use Rattle.std.specs.Prelude.{◌≡◌, ◌≤◌, length};
ghost use Rattle.lists.specs.Buffer.{overlay};
ghost use Rattle.packets.specs.Ack.{second_word, ack_start, ack_length, ack_words};

use crate::types::FETCH;
use crate::units::{WordAddress, WordCount};

// No acknowledgement is longer.
pub const ACK_WORDS: usize = 35;

// The second word of the acknowledgement of a Fetch or a Store, of a word with these contents.
pub fn second_word(kind: u8, contents: u16) -> u16
    ensures { result ≡ second_word kind contents }
{
    if kind == FETCH { contents } else { 0 }
}

// Writes the words of an acknowledgement that stand before those of its block; how many words it has with them.
pub fn start_ack(
    at: WordAddress,
    second: u16,
    block: Option<(WordAddress, WordCount)>,
    out: &mut [u16],
) -> WordCount
    requires block_bound { ack_length block ≤ ack_words }
    requires ack_words_in_bounds { ack_words ≤ length out.old }
    ensures result_value { result.0 ≡ ack_length block }
    ensures out_after { out.new ≡ overlay (ack_start at second block) out.old }
{
    out[0] = at.0;
    out[1] = second;
    match block {
        None => WordCount(2),
        Some((_, count)) => {
            out[2] = count.0;
            WordCount(3 + count.0)
        }
    }
}
