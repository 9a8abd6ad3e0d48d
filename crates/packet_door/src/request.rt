// What a packet asks for, by its type.
ghost use Rattle.std.specs.Prelude.{◌≡◌};
ghost use Rattle.packet_door.specs.At.{request_of};

use packets::{FETCH, GO, STORE};

#[derive(Clone, Copy)]
pub enum PacketRequest {
    // A word is put into the memory.
    Store,
    // A word of the memory.
    Fetch,
    // The process shall go on, once the acknowledgement has come through.
    Go,
    // The acknowledgement of a Go has come through.
    GoReply,
}

// What a type asks for; a packet of a type that asks for nothing does not get this far.
pub(crate) fn request_of(kind: u8) -> PacketRequest
    ensures { result ≡ request_of kind }
{
    match kind {
        STORE => PacketRequest::Store,
        FETCH => PacketRequest::Fetch,
        GO => PacketRequest::Go,
        _ => PacketRequest::GoReply,
    }
}
