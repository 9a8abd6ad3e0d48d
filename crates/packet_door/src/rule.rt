// The tests of a packet at the process of the door.
ghost use Rattle.std.specs.Prelude.{◌≡◌, ◌≤◌, length};
ghost use Rattle.rules.specs.Rule.{public};
ghost use Rattle.rules.specs.PacketRule.{word_inside};
ghost use Rattle.format.specs.Outcome.{unless};
ghost use Rattle.packet_door.specs.At.{row_of, fewest_of, number_of};

use crate::request::PacketRequest;
use checks::{debugs, may_look};
use format::Refusal;
use packets::{ByteCount, WordCount, address_of};
use process::Process;
use run_state::Run;
use session::PUP_HOST;

// 8: for a word that is fetched, the host of the packets may look; for all else it debugs the process.
fn right(request: PacketRequest, process: Process) -> bool
    ensures { result ≡ (row_of request).right (public process) }
{
    match request {
        PacketRequest::Store => debugs(process, PUP_HOST),
        PacketRequest::Fetch => may_look(process, PUP_HOST),
        PacketRequest::Go => debugs(process, PUP_HOST),
        PacketRequest::GoReply => debugs(process, PUP_HOST),
    }
}

// 9: a Go asks for a run state that the process can be resumed from.
fn runs(request: PacketRequest, run: Run) -> bool
    ensures { result ≡ (row_of request).runs run }
{
    match request {
        PacketRequest::Store => true,
        PacketRequest::Fetch => true,
        PacketRequest::Go => run.stopped_or_at_break(),
        PacketRequest::GoReply => true,
    }
}

// The word that these data words are about lies inside a process of this size.
fn word_fits(words: &[u16], size: u16) -> bool
    requires { 1 ≤ length words.now }
    ensures { result ≡ word_inside words.now size }
{
    let bytes = ByteCount(size as usize);
    bytes.holds(address_of(words), WordCount(1))
}

// 10: the word that is stored or fetched lies inside the process, which has this size.
fn range(request: PacketRequest, words: &[u16], size: u16) -> bool
    requires { fewest_of request ≤ length words.now }
    ensures { result ≡ (row_of request).range words.now size }
{
    match request {
        PacketRequest::Store => word_fits(words, size),
        PacketRequest::Fetch => word_fits(words, size),
        PacketRequest::Go => true,
        PacketRequest::GoReply => true,
    }
}

// The tests 7 to 10.
pub(crate) fn check_packet(
    request: PacketRequest,
    words: &[u16],
    process: Process,
) -> Result<(), Refusal>
    requires { fewest_of request ≤ length words.now }
    ensures { result ≡ unless (number_of request words.now process) tt }
{
    if !process.there {
        return Err(Refusal::PROCESS);
    }
    if !right(request, process) {
        return Err(Refusal::RIGHT);
    }
    if !runs(request, process.run) {
        return Err(Refusal::RUN_STATE);
    }
    if !range(request, words, process.size) {
        return Err(Refusal::RANGE);
    }
    Ok(())
}
