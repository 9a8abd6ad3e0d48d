// Which call a line is.
ghost use Rattle.std.specs.Prelude.{◌≡◌};
ghost use Rattle.recording.specs.Command.{begins, short_command, command_of};

use crate::LONGEST_LINE;

// The first word of a line.
#[derive(Clone, Copy)]
pub enum Command {
    Start,
    Request,
    Report,
    Store,
    Memory,
    Whole,
    Process,
    Packet,
    Tick,
    Text,
    Raw,
    Why,
    Unknown,
}

// Whether a line begins with this text. It is asked at each of the first characters of a line, so it ends at the first byte that differs:
// `starts_with` compares all of so short a text at once, which takes longer.
pub(crate) fn begins(line: &[u8], text: &[u8]) -> bool
    ensures { result ≡ begins text.now line.now }
{
    if line.len() < text.len() {
        return false;
    }
    for (i, c) in text.iter().enumerate() {
        if line[i] != *c {
            return false;
        }
    }
    true
}

// The call that a line of the right length begins with. What stands after the word is not looked at.
#[tactic(auto, unfolding(crate::specs::Command::short_command))]
fn short_command(line: &[u8]) -> Command
    ensures { result ≡ short_command line.now }
{
    if begins(line, b"start") {
        Command::Start
    } else if begins(line, b"report") {
        Command::Report
    } else if begins(line, b"store") {
        Command::Store
    } else if begins(line, b"memory") {
        Command::Memory
    } else if begins(line, b"whole") {
        Command::Whole
    } else if begins(line, b"process") {
        Command::Process
    } else if begins(line, b"packet") {
        Command::Packet
    } else if begins(line, b"tick") {
        Command::Tick
    } else {
        Command::Unknown
    }
}

// Which call a line is: one that stands for bytes may be of any length, and another call has at most 1,024 bytes.
#[tactic(auto, unfolding(crate::specs::Command::command_of, crate::specs::Command::any_length))]
pub(crate) fn command_of(line: &[u8]) -> Command
    ensures { result ≡ command_of line.now }
{
    if begins(line, b"request ") {
        Command::Request
    } else if begins(line, b"line ") {
        Command::Text
    } else if begins(line, b"raw ") {
        Command::Raw
    } else if begins(line, b"why ") {
        Command::Why
    } else if LONGEST_LINE < line.len() {
        Command::Unknown
    } else {
        short_command(line)
    }
}
