// A line as it is read, character by character.
ghost use Rattle.std.specs.Prelude.{◌≡◌, List, ℕ, ◌+◌, ◌≤◌, length};
ghost use Rattle.recording.specs.Line.{capped};
ghost use Rattle.recording.specs.Session.{reading, nothing_read, phase_after, typed};

use lines::Phase;

// What was read of a line: how many bytes of it are kept, how many characters it has, kept or not, and where its pairs led. The buffer is lent
// for each character, and there is no heap, so the length stands here.
#[derive(Clone, Copy)]
pub struct Partial {
    pub len: usize,
    pub size: usize,
    pub phase: Phase,
}

// One character more than so many, as far as they are counted.
fn one_more(size: usize) -> usize
    ensures { result ≡ capped (size + 1) }
{
    size.saturating_add(1)
}

impl Partial {
    // A line of which nothing was read yet.
    pub fn new() -> Partial
        ensures { (line : List ℕ) → reading result line ≡ nothing_read }
    {
        Partial {
            len: 0,
            size: 0,
            phase: Phase::Open,
        }
    }

    // Where the pairs led after one character more.
    #[tactic(auto, unfolding(crate::specs::Session::phase_after))]
    fn phase_after(self, first: usize, c: u8) -> Phase
        ensures { result ≡ phase_after self.len first self.phase c }
    {
        if self.len < first {
            return self.phase;
        }
        self.phase.next(c)
    }

    // One character more of a line whose pairs begin after its first so many bytes. It is counted, and kept if there is room.
    pub(crate) fn push(self, first: usize, c: u8, line: &mut [u8]) -> Partial
        requires { first ≤ length line.old }
        ensures { reading result line.new ≡ typed first (length line.old) c (reading self line.old) }
    {
        let phase = self.phase_after(first, c);
        let size = one_more(self.size);
        let len = self.len;
        if line.len() <= len {
            return Partial { len, size, phase };
        }
        line[len] = c;
        Partial {
            len: len + 1,
            size,
            phase,
        }
    }
}
