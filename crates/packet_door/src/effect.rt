// What a packet does, once its tests have passed.
ghost use Rattle.std.specs.Prelude.{◌≡◌, ◌+◌, ◌≤◌, length};
ghost use Rattle.packets.specs.Units.{first_byte};
ghost use Rattle.packets.specs.Data.{address_of, value_of};
ghost use Rattle.process.specs.Local.{local, Tested, Present};
ghost use Rattle.process.specs.Packet.{word_stored};
ghost use Rattle.packet_door.specs.At.{row_of, Passed};

use crate::request::PacketRequest;
use packets::{address_of, value_of};
use process::Process;

// Puts the value of these data words where they say.
fn store(words: &[u16], process: Process, bytes: &mut [u8]) -> Process
    requires tested { Tested process bytes.old }
    requires in_bounds { 2 ≤ length words.now }
    requires words_in_bounds { (first_byte (address_of words.now)).0 + 2 ≤ length bytes.old }
    ensures value { result ≡ (word_stored (first_byte (address_of words.now)).0 (value_of words.now) (local process bytes.old)).process }
    ensures bytes_after { bytes.new ≡ (word_stored (first_byte (address_of words.now)).0 (value_of words.now) (local process bytes.old)).bytes }
{
    let at = address_of(words);
    let value = value_of(words);
    let first = at.first_byte();
    process.store_word(bytes, first.0, value)
}

// One method of the process for each request; a Fetch abandons a Go that waits.
pub(crate) fn perform(
    request: PacketRequest,
    id: u32,
    words: &[u16],
    process: Process,
    bytes: &mut [u8],
) -> Process
    requires present { Present process bytes.old }
    requires passed { Passed request words.now process }
    ensures value { result ≡ ((row_of request).effect id words.now (local process bytes.old)).process }
    ensures bytes_after { bytes.new ≡ ((row_of request).effect id words.now (local process bytes.old)).bytes }
{
    match request {
        PacketRequest::Store => store(words, process, bytes),
        PacketRequest::Fetch => process.without_go(),
        PacketRequest::Go => process.ask_go(id),
        PacketRequest::GoReply => process.reply_go(id),
    }
}
