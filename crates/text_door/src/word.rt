// A word of 32 bits and a register of 16 as bytes, low byte first.
ghost use Rattle.std.specs.Prelude.{◌≡◌, ◌<◌};
ghost use Rattle.rules.specs.TextRule.{word_of, word_bytes, register_bytes};

// A byte as a number of 32 bits.
fn byte_to_u32(b: u8) -> u32
    ensures { (result ≡ b) × (result < 256) }
{
    b as u32
}

// The word of these bytes.
pub(crate) fn word_of(bytes: [u8; 4]) -> u32
    ensures { result ≡ word_of bytes }
{
    let first = byte_to_u32(bytes[0]);
    let second = byte_to_u32(bytes[1]);
    let third = byte_to_u32(bytes[2]);
    let fourth = byte_to_u32(bytes[3]);
    first + 256 * second + 65536 * third + 16777216 * fourth
}

// The bytes of a word.
pub(crate) fn word_bytes(w: u32) -> [u8; 4]
    ensures { result ≡ word_bytes w }
{
    let mut bytes = [0u8; 4];
    bytes[0] = (w % 256) as u8;
    bytes[1] = (w / 256 % 256) as u8;
    bytes[2] = (w / 65536 % 256) as u8;
    bytes[3] = (w / 16777216 % 256) as u8;
    bytes
}

// The two bytes of a register.
pub(crate) fn register_bytes(w: u16) -> [u8; 2]
    ensures { result ≡ register_bytes w }
{
    let mut bytes = [0u8; 2];
    bytes[0] = (w % 256) as u8;
    bytes[1] = (w / 256) as u8;
    bytes
}
