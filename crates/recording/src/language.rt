// The three languages.
ghost use Rattle.std.specs.Prelude.{◌≡◌};
ghost use Rattle.recording.specs.Line.{there_at, pairs_behind, pairs_from, first_state};

use crate::command::begins;
use calls::{NO_DOOR, STATE};
use gateway::fresh_start;
use process::MEMORY_BYTES;

// What the lines are.
#[derive(Clone, Copy)]
pub enum Language {
    // The pairs of a request each, to a gateway with process 2 alone.
    Bench,
    // Calls of a recording, to a gateway with no process before the first start.
    Recording,
    // Text lines, and calls of a recording, to a gateway with no process before the first start.
    TextDoor,
}

// After so many bytes of a line its pairs have begun, in each language and behind each word.
pub(crate) const BEGUN: usize = 8;

// Where in a line of a recording the pairs begin.
#[tactic(auto, unfolding(crate::specs::Line::pairs_behind))]
fn pairs_behind(line: &[u8]) -> usize
    ensures { result ≡ pairs_behind line.now }
{
    if begins(line, b"raw ") || begins(line, b"why ") {
        4
    } else {
        8
    }
}

impl Language {
    // The processes that are there at first.
    #[tactic(auto, unfolding(crate::specs::Line::there_at))]
    fn there(self) -> [bool; 8]
        ensures { result ≡ there_at self }
    {
        match self {
            Language::Bench => [false, false, true, false, false, false, false, false],
            Language::Recording | Language::TextDoor => [false; 8],
        }
    }

    // Where in a line that begins so the pairs begin: in a recording after the word and a blank.
    #[tactic(auto, unfolding(crate::specs::Line::pairs_from))]
    pub(crate) fn pairs_from(self, line: &[u8]) -> usize
        ensures { result ≡ pairs_from self line.now }
    {
        match self {
            Language::Bench => 0,
            Language::Recording | Language::TextDoor => pairs_behind(line),
        }
    }
}

// Writes the state before the first line: what is there has 4,096 bytes, and no process is that of the Pup door.
pub fn begin(language: Language, state: &mut [u8; STATE])
    ensures { state.new ≡ first_state language state.old }
{
    let _ = fresh_start(language.there(), [MEMORY_BYTES as u16; 8], NO_DOOR, state);
}
