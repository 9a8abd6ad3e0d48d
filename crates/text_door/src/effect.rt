// What a text line reads, and what it does, once its tests have passed.
ghost use Rattle.std.specs.Prelude.{◌≡◌, ◌+◌, ◌≤◌, ◌<◌, length, get_or};
ghost use Rattle.process.specs.Local.{local, Tested, Present};
ghost use Rattle.process.specs.Record.{with_vector};
ghost use Rattle.process.specs.Request.{deposited, vector_after};
ghost use Rattle.rules.specs.TextRule.{word_at, word_bytes, register_bytes};
ghost use Rattle.text_door.specs.At.{row_of, Passed};

use crate::request::TextRequest;
use crate::word::{register_bytes, word_bytes, word_of};
use fields::Line;
use process::Process;

// The seen word at this address.
pub(crate) fn read_word(line: Line, process: Process, bytes: &[u8]) -> u32
    requires { line.third + 4 ≤ length bytes.now }
    ensures { result ≡ word_at line.third (local process bytes.now) }
{
    let mut word = [0u8; 4];
    process.examine(bytes, line.third as usize, &mut word);
    word_of(word)
}

// What this register holds.
pub(crate) fn read_register(line: Line, process: Process) -> u32
    requires { line.third < 9 }
    ensures { result ≡ get_or process.vector line.third 0 }
{
    process.vector[line.third as usize] as u32
}

// Makes another word what is seen at this address.
fn write_word(line: Line, process: Process, bytes: &mut [u8]) -> Process
    requires tested { Tested process bytes.old }
    requires third_in_bounds { line.third + 4 ≤ length bytes.old }
    ensures value { result ≡ (deposited line.third (word_bytes line.fourth) (local process bytes.old)).process }
    ensures bytes_after { bytes.new ≡ (deposited line.third (word_bytes line.fourth) (local process bytes.old)).bytes }
{
    let word = word_bytes(line.fourth);
    process.deposit(bytes, line.third as usize, &word)
}

// Puts another value into this register.
fn write_register(line: Line, process: Process) -> Process
    requires { (line.third < 9) × (line.fourth ≤ 65535) }
    ensures { result ≡ with_vector (vector_after (line.third + line.third) (register_bytes line.fourth) process.vector) process }
{
    let value = register_bytes(line.fourth as u16);
    let n = line.third as usize;
    process.deposit_vector(n + n, &value)
}

// One method of the process for each request.
pub(crate) fn perform(
    request: TextRequest,
    line: Line,
    process: Process,
    bytes: &mut [u8],
) -> Process
    requires present { Present process bytes.old }
    requires passed { Passed request line process }
    ensures value { result ≡ ((row_of request).effect line (local process bytes.old)).process }
    ensures bytes_after { bytes.new ≡ ((row_of request).effect line (local process bytes.old)).bytes }
{
    match request {
        TextRequest::ReadWord => process,
        TextRequest::WriteWord => write_word(line, process, bytes),
        TextRequest::ReadRegister => process,
        TextRequest::WriteRegister => write_register(line, process),
        TextRequest::Continue => process.continue_from(line.third as u16, bytes),
        TextRequest::Step => process.step_from(line.third as u16, bytes),
    }
}
