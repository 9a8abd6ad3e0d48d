// How much of its output buffer a call wrote.
ghost use Rattle.std.specs.Prelude.{◌≡◌};
ghost use Rattle.gateway.specs.Lengths.{reply_length, notice_length, after_newline, line_length};

use format::{HEADER_BYTES, Refusal};

// How many bytes of its buffer a request wrote: the reply, the CAN'T, or nothing.
pub fn reply_length(outcome: Result<usize, Refusal>) -> usize
    ensures { result ≡ reply_length outcome }
{
    match outcome {
        Ok(n) => n,
        Err(refusal) => if refusal.0 < 7 { 0 } else { HEADER_BYTES },
    }
}

// How many bytes of its buffer a report wrote: the notice, or nothing.
pub fn notice_length(outcome: Result<usize, Refusal>) -> usize
    ensures { result ≡ notice_length outcome }
{
    outcome.unwrap_or(0)
}

// The index after the first newline of a buffer, or after its end where there is none.
fn after_newline(buffer: &[u8]) -> usize
    ensures { result ≡ after_newline buffer.now }
{
    for i in 0..buffer.len() {
        if buffer[i] == b'\n' {
            return i + 1;
        }
    }
    buffer.len() + 1
}

// How many bytes of its buffer a text line wrote: the line that answers it, the line with the flag up to its newline, or nothing.
pub fn line_length(outcome: Result<usize, Refusal>, buffer: &[u8]) -> usize
    ensures { result ≡ line_length outcome buffer.now }
{
    match outcome {
        Ok(n) => n,
        Err(refusal) => if refusal.0 < 100 {
            0
        } else {
            after_newline(buffer)
        },
    }
}
