// A packet, which goes to the process of the Pup door, and its acknowledgement.
ghost use Rattle.std.specs.Prelude.{◌≡◌, ◌+◌, ◌*◌, ◌≤◌, false, length, take, MatchOption};
ghost use Rattle.lists.specs.Joined.{joined};
ghost use Rattle.format.specs.Outcome.{length_of};
ghost use Rattle.lines.specs.Scan.{Put};
ghost use Rattle.calls.specs.Effect.{longest_text, Prints, Does};
ghost use Rattle.calls.specs.Packet.{most_words, last_in, data_in, packet_in, IsPacket, acknowledged, word_text, ack_line, packet_shown};
ghost use Rattle.calls.specs.Meaning.{zero_ack, packet_made, packet_effect};

use crate::call::put_numbered;
use crate::show::answer_unknown;
use crate::{MEMORY, STATE};
use decimal::{Number, put_field, put_number};
use format::{Refusal, number_of};
use gateway::packet;
use lines::{put, put_mark};
use packets::{ACK, ACK_WORDS, FETCH, GO, STORE};

// No packet of a recording has more data words.
const MOST_WORDS: usize = 64;
// The greatest ID, of 32 bits.
const MOST_ID: usize = 4294967295;

// The data words, of which so many stand at the start, and the last number of the line as it was read. A buffer and a length, and no Vec:
// there is no heap.
#[derive(Clone, Copy)]
pub struct Data {
    pub last: Number,
    pub words: [u16; MOST_WORDS],
    pub len: usize,
}

// The words after a number, until the line ends.
fn data_behind(number: Number, line: &[u8]) -> Data
    ensures last_value { result.last ≡ last_in most_words line.now number }
    ensures words_value { take result.len result.words ≡ data_in most_words line.now number }
    ensures fits { result.len ≤ most_words }
{
    let mut last = number;
    let mut words = [0u16; MOST_WORDS];
    for len in 0..MOST_WORDS {
        if last.ends(line) {
            return Data { last, words, len };
        }
        last = last.then(line, 65535);
        words[len] = last.value as u16;
    }
    Data {
        last,
        words,
        len: MOST_WORDS,
    }
}

// The numbers of a packet.
#[derive(Clone, Copy)]
pub struct Packet {
    pub kind: u8,
    pub id: u32,
    pub data: Data,
}

// The numbers after the word, if they are right.
fn read_packet(line: &[u8]) -> Option<Packet>
    ensures { MatchOption result (packet_in line.now ≡ false) (IsPacket line.now) }
{
    let kind = Number::start(6).then(line, 255);
    let id = kind.then(line, MOST_ID);
    let data = data_behind(id, line);
    if !data.last.ends(line) {
        return None;
    }
    Some(Packet {
        kind: kind.value as u8,
        id: id.value as u32,
        data,
    })
}

// Whether a packet of this type that got this number is acknowledged: a Store, a Fetch or a Go that is granted.
#[tactic(auto, unfolding(crate::specs::Packet::acknowledged))]
fn is_acknowledged(kind: u8, number: u8) -> bool
    ensures { result ≡ acknowledged kind number }
{
    number == 0 && matches!(kind, STORE | FETCH | GO)
}

// Words, each after a blank, from an index on; the index after them. That of a state vector, in display, takes nine words by value.
fn put_words(words: &[u16], from: usize, out: &mut [u8]) -> usize
    requires { from + 6 * length words.now ≤ length out.old }
    ensures put { Put from (joined word_text words.now) out.old result out.new }
    ensures upper_bound { result ≤ from + 6 * length words.now }
{
    let mut at = from;
    for word in words {
        at = put_field(b' ', *word, at, out);
    }
    at
}

// The number of a packet and its acknowledgement, as a line.
fn put_ack(number: u8, id: u32, words: &[u16], out: &mut [u8]) -> usize
    requires { 23 + 6 * length words.now ≤ length out.old }
    ensures { Prints (ack_line number id words.now) result out.old out.new }
{
    let first = put_number(number as u16, 0, out);
    let second = put_field(b' ', ACK as u16, first, out);
    put_mark(b' ', second, out);
    let third = put_number(id, second + 1, out);
    let end = put_words(words, third, out);
    put(b"\n", end, out)
}

// The number of a packet, and its acknowledgement or a dash, as a line.
#[tactic(auto, unfolding(crate::specs::Packet::packet_shown, crate::specs::Packet::silent_line))]
fn put_packet(acked: bool, number: u8, id: u32, words: &[u16], out: &mut [u8]) -> usize
    requires { 23 + 6 * length words.now ≤ length out.old }
    ensures { Prints (packet_shown acked number id words.now) result out.old out.new }
{
    if acked {
        return put_ack(number, id, words, out);
    }
    put_numbered(number, b" -\n", out)
}

// The buffer that is lent to a call for an acknowledgement.
#[tactic(auto, unfolding(crate::specs::Meaning::zero_ack))]
fn zero_ack() -> [u16; ACK_WORDS]
    ensures { result ≡ zero_ack }
{
    [0u16; ACK_WORDS]
}

// How many words of its buffer a packet wrote.
fn ack_length(outcome: Result<usize, Refusal>) -> usize
    ensures { result ≡ length_of outcome }
{
    outcome.unwrap_or(0)
}

// Hands over a packet, and puts its answer as a line.
fn make_packet(
    state: &mut [u8; STATE],
    memory: &mut [u8; MEMORY],
    kind: u8,
    id: u32,
    words: &[u16],
    out: &mut [u8],
) -> usize
    requires { longest_text ≤ length out.old }
    ensures { Does (packet_made kind id words.now state.old memory.old) result state.new memory.new out.old out.new }
{
    let mut ack = zero_ack();
    let outcome = packet(state, memory, kind, id, words, &mut ack);
    let n = ack_length(outcome).min(ACK_WORDS);
    let number = number_of(outcome);
    put_packet(is_acknowledged(kind, number), number, id, &ack[..n], out)
}

// packet TYPE ID W ..
pub fn answer_packet(
    state: &mut [u8; STATE],
    memory: &mut [u8; MEMORY],
    line: &[u8],
    out: &mut [u8],
) -> usize
    requires { longest_text ≤ length out.old }
    ensures { Does (packet_effect line.now state.old memory.old) result state.new memory.new out.old out.new }
{
    let Some(Packet { kind, id, data }) = read_packet(line) else {
        return answer_unknown(state, memory, out);
    };
    make_packet(state, memory, kind, id, &data.words[..data.len], out)
}
