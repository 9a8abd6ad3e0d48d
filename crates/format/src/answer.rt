// The headers of the answers to a request, and of a notice.
ghost use Rattle.std.specs.Prelude.{◌≡◌};
ghost use Rattle.format.specs.Answer.{cant_of, created_of, notice_of, with_args};

use crate::header::Header;
use ops::{CANT, NOTICE};

impl Header {
    // The header of the CAN'T that refuses this request.
    pub fn cant(self) -> Header
        ensures { result ≡ cant_of self }
    {
        let cmd = if self.cmd < CANT {
            self.cmd + CANT
        } else {
            255
        };
        Header { cmd, ..self }
    }

    // The header of CREATED with this process number.
    pub fn created(self, number: u8) -> Header
        ensures { result ≡ created_of self number }
    {
        Header {
            pid: number,
            ..self
        }
    }

    // The same header with these numbers in ARG1 and ARG2.
    pub fn with_args(self, arg1: u16, arg2: u16) -> Header
        ensures { result ≡ with_args arg1 arg2 self }
    {
        Header { arg1, arg2, ..self }
    }

    // The header of a notice: kind 0 TRAP, 1 HALT, 2 BPT, 3 TTRAP.
    pub fn notice(host: u8, kind: u8, pid: u8, reason: u16) -> Header
        ensures { result ≡ notice_of host kind pid reason }
    {
        let cmd = if kind < 4 { kind + NOTICE } else { 255 };
        Header {
            host,
            cmd,
            pid,
            arg1: reason,
            arg2: 0,
        }
    }
}
