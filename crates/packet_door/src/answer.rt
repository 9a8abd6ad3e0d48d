// The words that answer a packet.
ghost use Rattle.std.specs.Prelude.{◌≡◌, false, ◌≤◌, length};
ghost use Rattle.packets.specs.Types.{too_few};
ghost use Rattle.packets.specs.Ack.{ack_words};
ghost use Rattle.process.specs.Local.{local, Tested, Present};
ghost use Rattle.service.specs.At.{answer, served};
ghost use Rattle.packet_door.specs.At.{row_of, Passed, replied, granted_by, packet_at};

use crate::ack::write_ack;
use crate::effect::perform;
use crate::request::{PacketRequest, request_of};
use crate::rule::check_packet;
use format::Refusal;
use packets::{FETCH, STORE};
use process::Process;
use service::ServiceResult;

// Answers a packet whose tests have passed, by the process after it: what is stored shows in the block. The others are answered without words.
fn reply_to(
    request: PacketRequest,
    words: &[u16],
    process: Process,
    bytes: &[u8],
    out: &mut [u16],
) -> Result<usize, Refusal>
    requires bytes_len { length bytes.now ≡ process.size }
    requires passed { Passed request words.now process }
    requires ack_words_in_bounds { ack_words ≤ length out.old }
    ensures { answer result out.new ≡ replied ((row_of request).ack words.now (local process bytes.now)) out.old }
{
    match request {
        PacketRequest::Store => Ok(write_ack(STORE, words, process, bytes, out)),
        PacketRequest::Fetch => Ok(write_ack(FETCH, words, process, bytes, out)),
        PacketRequest::Go => Ok(0),
        PacketRequest::GoReply => Ok(0),
    }
}

// Does what a packet asks for whose tests have passed, and answers it.
fn grant(
    request: PacketRequest,
    id: u32,
    words: &[u16],
    process: Process,
    bytes: &mut [u8],
    out: &mut [u16],
) -> ServiceResult
    requires present { Present process bytes.old }
    requires passed { Passed request words.now process }
    requires ack_words_in_bounds { ack_words ≤ length out.old }
    ensures { served result.outcome result.process bytes.new out.new ≡ granted_by request id words.now out.old (local process bytes.old) }
{
    let next = perform(request, id, words, process, bytes);
    let outcome = reply_to(request, words, next, bytes, out);
    ServiceResult {
        outcome,
        process: next,
    }
}

// Refused so: the process stays as it is, and a Go that waits goes on waiting.
fn refuse(refusal: Refusal, process: Process) -> ServiceResult
    ensures { (result.outcome ≡ Err refusal) × (result.process ≡ process) }
{
    ServiceResult {
        outcome: Err(refusal),
        process,
    }
}

// A packet to the process of the door: its tests, what it does and the words that acknowledge it; a refused one does and writes nothing.
pub fn packet_for_process(
    kind: u8,
    id: u32,
    words: &[u16],
    process: Process,
    bytes: &mut [u8],
    out: &mut [u16],
) -> ServiceResult
    requires tested { Tested process bytes.old }
    requires words_value { too_few kind words.now ≡ false }
    requires ack_words_in_bounds { ack_words ≤ length out.old }
    ensures { served result.outcome result.process bytes.new out.new ≡ packet_at kind id words.now out.old (local process bytes.old) }
{
    let request = request_of(kind);
    match check_packet(request, words, process) {
        Ok(_) => grant(request, id, words, process, bytes, out),
        Err(refusal) => refuse(refusal, process),
    }
}
