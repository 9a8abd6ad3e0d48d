// Answers, that is replies, CAN'Ts and notices: the gateway writes them, the desk reads them. The gateway's writers make no tests, because
// every answer to a request that was read passes them (`answers_are_granted`).
ghost use Rattle.std.specs.Prelude.{◌≡◌, [], ◌≤◌, length};
ghost use Rattle.lists.specs.Word.{low_first};
ghost use Rattle.ops.specs.Table.{answer_form};
ghost use Rattle.message.specs.Exchange.{wrote, sends, sends_head, reads};
ghost use Rattle.format.specs.Answer.{notice_of};
ghost use Rattle.format.specs.Sizes.{header_bytes};

use crate::exchange::read;
use format::{HEADER_BYTES, Header, Refusal, put_string};
use ops::answer_form;
use words::vector_bytes;

// Writes an answer that carries no string; its length.
pub fn write_reply(answer: Header, buffer: &mut [u8]) -> usize
    requires { header_bytes ≤ length buffer.old }
    ensures { wrote (Ok result) buffer.new ≡ sends answer [] buffer.old }
{
    answer.put(buffer);
    HEADER_BYTES
}

// Writes the header of CONTENTS, whose ARG2 bytes stand after the tenth byte of the buffer already; the length of the whole.
pub fn write_contents(answer: Header, buffer: &mut [u8]) -> usize
    requires { header_bytes ≤ length buffer.old }
    ensures { wrote (Ok result) buffer.new ≡ sends_head answer answer.arg2 buffer.old }
{
    answer.put(buffer);
    answer.arg2 as usize + HEADER_BYTES
}

// Writes the notice to a host that a process has stopped: kind 0 TRAP, 1 HALT, 2 BPT, 3 TTRAP; its length.
pub fn write_notice(
    host: u8,
    kind: u8,
    pid: u8,
    reason: u16,
    vector: [u16; 9],
    buffer: &mut [u8],
) -> usize
    requires { 28 ≤ length buffer.old }
    ensures { wrote (Ok result) buffer.new ≡ sends (notice_of host kind pid reason) (low_first vector) buffer.old }
{
    let h = Header::notice(host, kind, pid, reason);
    let bytes = vector_bytes(vector);
    h.put(buffer);
    put_string(&bytes, buffer);
    28
}

// The desk reads any bytes as an answer, by the tests 3 to 6.
pub fn read_answer(message: &[u8]) -> Result<Header, Refusal>
    ensures { result ≡ reads answer_form message.now }
{
    if message.len() < HEADER_BYTES {
        return Err(Refusal::LENGTH);
    }
    let h = Header::of(message);
    read(answer_form(h.cmd), h, message)
}
