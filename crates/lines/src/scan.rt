// Reading a line of lower-case hex pairs parted by single blanks, in parts of any length.
ghost use Rattle.std.specs.Prelude.{◌≡◌, length};
ghost use Rattle.lines.specs.Scan.{next, full, made, after, bytes_of, kept, filled};

use digits::digit_value;

// Where in a line the reading stands.
#[derive(Clone, Copy)]
pub enum Phase {
    // At the start, or after a blank: a pair has to follow.
    Open,
    // After the first digit of a pair, which has this value.
    Half(u8),
    // After a pair.
    Full,
    // The line is none.
    Bad,
}

// A line read so far, and how many of its bytes are kept, in a buffer that is lent part by part: there is no heap, so the length stands beside it.
#[derive(Clone, Copy)]
pub struct Scan {
    pub phase: Phase,
    pub len: usize,
}

impl Phase {
    // One character more. The phase is asked before the character: of a line that is none, no digit is worked out.
    #[tactic(auto, unfolding(crate::specs::Scan::next, crate::specs::Scan::opened))]
    pub fn next(self, c: u8) -> Phase
        ensures { result ≡ next self c }
    {
        match self {
            Phase::Open => match digit_value(c) {
                Some(v) => Phase::Half(v),
                None => Phase::Bad,
            },
            Phase::Half(_) => match digit_value(c) {
                Some(_) => Phase::Full,
                None => Phase::Bad,
            },
            Phase::Full if c == b' ' => Phase::Open,
            Phase::Full => Phase::Bad,
            Phase::Bad => self,
        }
    }

    // Whether a line may end here.
    #[tactic(auto, unfolding(crate::specs::Scan::full))]
    pub fn is_full(self) -> bool
        ensures { result ≡ full self }
    {
        matches!(self, Phase::Full)
    }
}

impl Scan {
    // A line of which nothing was read yet.
    pub fn new() -> Scan
        ensures phase_value { result.phase ≡ Phase.Open }
        ensures len_value { result.len ≡ 0 }
    {
        Scan {
            phase: Phase::Open,
            len: 0,
        }
    }

    // One character more: the byte that it completes goes to the buffer, if there is room.
    #[tactic(auto, unfolding(crate::specs::Scan::next, crate::specs::Scan::made, crate::specs::Scan::kept, crate::specs::Scan::filled))]
    fn push(self, c: u8, buffer: &mut [u8]) -> Scan
        ensures phase_value { result.phase ≡ next self.phase c }
        ensures len_value { result.len ≡ filled (length buffer.old) self.len (made self.phase c) }
        ensures buffer_after { buffer.new ≡ kept self.len (made self.phase c) buffer.old }
    {
        let mut len = self.len;
        let Phase::Half(high) = self.phase else {
            let phase = self.phase.next(c);
            return Scan { phase, len };
        };
        let Some(low) = digit_value(c) else {
            let phase = Phase::Bad;
            return Scan { phase, len };
        };
        if len < buffer.len() {
            buffer[len] = high % 16 * 16 + low;
            len += 1;
        }
        let phase = Phase::Full;
        Scan { phase, len }
    }

    // A part of the line.
    pub fn part(self, text: &[u8], buffer: &mut [u8]) -> Scan
        ensures phase_value { result.phase ≡ after self.phase text.now }
        ensures len_value { result.len ≡ filled (length buffer.old) self.len (bytes_of self.phase text.now) }
        ensures buffer_after { buffer.new ≡ kept self.len (bytes_of self.phase text.now) buffer.old }
    {
        let mut scan = self;
        for c in text {
            scan = scan.push(*c, buffer);
        }
        scan
    }
}
