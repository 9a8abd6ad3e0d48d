// The types of packets, and the fewest data words of each. They are numbers, and no enum: a packet of any type is answered, and the rules
// (packet_row_of) speak of every number. packet_door has the enum of what a known one asks for.
ghost use Rattle.std.specs.Prelude.{◌≡◌};
ghost use Rattle.packets.specs.Types.{known_type, fewest_words, too_few};

// A word is stored: octal 200.
pub const STORE: u8 = 128;

// A word is fetched: octal 201.
pub const FETCH: u8 = 129;

// The process shall go on: octal 202.
pub const GO: u8 = 130;

// The acknowledgement of a Go was received: octal 203.
pub const GO_REPLY: u8 = 131;

// The acknowledgement: octal 204. Only the door sends it.
pub const ACK: u8 = 132;

// Whether a packet of this type may be sent to the door.
pub fn is_known(kind: u8) -> bool
    ensures { result ≡ known_type kind }
{
    matches!(kind, STORE | FETCH | GO | GO_REPLY)
}

// The fewest data words of a packet of this type. An unknown type has no fewest.
pub fn fewest_words(kind: u8) -> usize
    ensures { result ≡ fewest_words kind }
{
    match kind {
        STORE => 2,
        FETCH => 1,
        _ => 0,
    }
}

// Whether a packet has too few data words for its type.
pub fn too_few(kind: u8, words: &[u16]) -> bool
    ensures { result ≡ too_few kind words.now }
{
    words.len() < fewest_words(kind)
}
