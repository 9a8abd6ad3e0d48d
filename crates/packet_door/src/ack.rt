// The words of an acknowledgement.
ghost use Rattle.std.specs.Prelude.{◌≡◌, true, ◌+◌, ◌*◌, ◌≤◌, length};
ghost use Rattle.lists.specs.Buffer.{overlay};
ghost use Rattle.lists.specs.Word.{words_of};
ghost use Rattle.packets.specs.Ack.{ack_words};
ghost use Rattle.process.specs.Local.{local};
ghost use Rattle.rules.specs.PacketRule.{words_seen, word_seen, word_inside, ack_for};

use packets::{
    ByteCount, WordAddress, WordCount, address_of, block_to_send, second_word, start_ack,
};
use process::Process;
use words::word_of;

// A block of 32 words, the longest, has so many bytes.
const BLOCK_BYTES: usize = 64;

// Writes so many words of these bytes, low byte first.
fn write_words(bytes: &[u8; BLOCK_BYTES], count: WordCount, out: &mut [u16])
    requires { (count.0 ≤ 32) × (count.0 ≤ length out.old) }
    ensures { out.new ≡ overlay (words_of count.0 bytes.now) out.old }
{
    for i in 0..count.0 as usize {
        let first = i + i;
        out[i] = word_of(bytes[first + 1], bytes[first]);
    }
}

// Writes so many seen words from an address on.
fn write_seen(at: WordAddress, count: WordCount, process: Process, bytes: &[u8], out: &mut [u16])
    requires count_in_bounds { 2 * (at.0 + count.0) ≤ length bytes.now }
    requires count_bound { (count.0 ≤ 32) × (count.0 ≤ length out.old) }
    ensures { out.new ≡ overlay (words_seen at count (local process bytes.now)) out.old }
{
    let mut block = [0u8; BLOCK_BYTES];
    let end = count.in_bytes().0;
    process.examine(bytes, at.first_byte().0, &mut block[..end]);
    write_words(&block, count, out);
}

// The seen word at an address.
fn word_at(at: WordAddress, process: Process, bytes: &[u8]) -> u16
    requires { 2 * (at.0 + 1) ≤ length bytes.now }
    ensures { result ≡ word_seen at (local process bytes.now) }
{
    let mut pair = [0u8; 2];
    process.examine(bytes, at.first_byte().0, &mut pair);
    word_of(pair[1], pair[0])
}

// Writes the acknowledgement of a Store or Fetch with these data words, by the process after it; how many words it has.
pub(crate) fn write_ack(
    kind: u8,
    words: &[u16],
    process: Process,
    bytes: &[u8],
    out: &mut [u16],
) -> usize
    requires bytes_len { length bytes.now ≡ process.size }
    requires in_bounds { (1 ≤ length words.now) × (word_inside words.now process.size ≡ true) }
    requires ack_words_in_bounds { ack_words ≤ length out.old }
    ensures value { result ≡ length (ack_for kind words.now (local process bytes.now)) }
    ensures out_after { out.new ≡ overlay (ack_for kind words.now (local process bytes.now)) out.old }
{
    let at = address_of(words);
    let size = process.size as usize;
    let block = block_to_send(ByteCount(size), at, words);
    let second = second_word(kind, word_at(at, process, bytes));
    let count = start_ack(at, second, block, out);
    match block {
        None => count.0 as usize,
        Some((base, length)) => {
            write_seen(base, length, process, bytes, &mut out[3..]);
            count.0 as usize
        }
    }
}
