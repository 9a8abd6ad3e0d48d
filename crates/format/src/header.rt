// The ten bytes that every message starts with, and the string after them.
ghost use Rattle.std.specs.Prelude.{◌≡◌, ◌+◌, ◌≤◌, length};
ghost use Rattle.std.proofs.Math.Seq.{paste};
ghost use Rattle.lists.specs.Buffer.{overlay};
ghost use Rattle.format.specs.Layout.{header, header_of, string_of, fixed_right};
ghost use Rattle.format.specs.Sizes.{header_bytes};

use crate::sizes::HEADER_BYTES;
use words::{high_byte, low_byte, word_of};

// The fields of a message. HOST is the sender of a request, and the host that an answer is for.
#[derive(Clone, Copy)]
pub struct Header {
    pub host: u8,
    pub cmd: u8,
    pub pid: u8,
    pub arg1: u16,
    pub arg2: u16,
}

impl Header {
    // The ten bytes go to the start of a buffer.
    pub fn put(self, buffer: &mut [u8])
        requires { header_bytes ≤ length buffer.old }
        ensures { buffer.new ≡ overlay (header self) buffer.old }
    {
        buffer[0] = 0;
        buffer[1] = self.host;
        buffer[2] = 255;
        buffer[3] = 0;
        buffer[4] = self.cmd;
        buffer[5] = self.pid;
        buffer[6] = high_byte(self.arg1);
        buffer[7] = low_byte(self.arg1);
        buffer[8] = high_byte(self.arg2);
        buffer[9] = low_byte(self.arg2);
    }

    // The fields in a message's first ten bytes.
    pub fn of(message: &[u8]) -> Header
        requires { header_bytes ≤ length message.now }
        ensures { result ≡ header_of message.now }
    {
        Header {
            host: message[1],
            cmd: message[4],
            pid: message[5],
            arg1: word_of(message[6], message[7]),
            arg2: word_of(message[8], message[9]),
        }
    }
}

// A string goes after the tenth byte of a buffer.
pub fn put_string(string: &[u8], buffer: &mut [u8])
    requires { header_bytes + length string.now ≤ length buffer.old }
    ensures { buffer.new ≡ paste buffer.old header_bytes string.now (length string.now) }
{
    buffer[HEADER_BYTES..HEADER_BYTES + string.len()].copy_from_slice(string);
}

// TYPE, LINK and STYPE are right.
pub fn fixed_right(message: &[u8]) -> bool
    requires { header_bytes ≤ length message.now }
    ensures { result ≡ fixed_right message.now }
{
    message[0] == 0 && message[2] == 255 && message[3] == 0
}

// The string of a message: the part after the tenth byte, or nothing where there is none.
pub fn string(message: &[u8]) -> &[u8]
    ensures { result.now ≡ string_of message.now }
{
    if HEADER_BYTES <= message.len() {
        &message[HEADER_BYTES..]
    } else {
        &message[..0]
    }
}
