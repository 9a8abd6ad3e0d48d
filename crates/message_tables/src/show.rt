// Printing of fields, bytes, outcomes and readings.
use format::{Header, Refusal};
use std::io::Write;
use std::{fmt, io};

// The end that reads a message.
#[derive(Clone, Copy)]
pub(crate) enum End {
    Desk,
    Gateway,
}

// The fields of a message, printed with their names.
#[derive(Clone, Copy)]
pub(crate) struct Fields(pub Header);

impl fmt::Display for Fields {
    fn fmt<W: fmt::Write>(&self, f: &mut fmt::Formatter<W>) -> fmt::Result {
        let Header {
            host,
            cmd,
            pid,
            arg1,
            arg2,
        } = self.0;
        write!(f, "HOST {host} CMD {cmd} PID {pid} ARG1 {arg1} ARG2 {arg2}")
    }
}

// Bytes, each printed as a blank and two hexadecimal digits.
#[derive(Clone, Copy)]
struct Hex<'a>(&'a [u8]);

impl fmt::Display for Hex<'_> {
    fn fmt<W: fmt::Write>(&self, f: &mut fmt::Formatter<W>) -> fmt::Result {
        for byte in self.0 {
            write!(f, " {byte:02x}")?;
        }
        Ok(())
    }
}

// What an end finds in a message: its fields, or the refusal.
fn found(message: &[u8], end: End) -> Result<Header, Refusal> {
    match end {
        End::Desk => message::read_answer(message),
        End::Gateway => message::read_request(message).map(|(h, _)| h),
    }
}

// What an end reads of a message.
pub(crate) fn read<W: Write>(out: &mut W, message: &[u8], end: End) -> io::Result<()> {
    match found(message, end) {
        Ok(h) => writeln!(
            out,
            "  is {} string{}",
            Fields(h),
            Hex(format::string(message))
        ),
        Err(Refusal(number)) => writeln!(out, "  refused {number}"),
    }
}

// A message, and what is read of it.
pub(crate) fn message<W: Write>(out: &mut W, message: &[u8], end: End) -> io::Result<()> {
    writeln!(out, "{}", Hex(message))?;
    read(out, message, end)
}

// A message that was written into a buffer, or the number of its refusal.
pub(crate) fn written<W: Write>(
    out: &mut W,
    outcome: Result<usize, Refusal>,
    buffer: &[u8],
    end: End,
) -> io::Result<()> {
    match outcome {
        Ok(n) => message(out, front(buffer, n), end),
        Err(Refusal(number)) => writeln!(out, " refused {number}"),
    }
}

// The first n bytes.
pub(crate) fn front(bytes: &[u8], n: usize) -> &[u8] {
    bytes.get(..n).unwrap_or(bytes)
}
