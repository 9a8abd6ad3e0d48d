// The word of a breakpoint in memory: planted, put back, exchanged with the saved one, or laid over a part of memory.
ghost use Rattle.std.specs.Prelude.{◌≡◌, true, ◌+◌, ◌<◌, length};
ghost use Rattle.breakpoints.specs.Seen.{put_word, is_planted, restored, saved_from, planted, bpt_stored, overlay_saved_byte, overlay_saved_word};
ghost use Rattle.breakpoints.specs.Entry.{in_use};

use crate::entry::Breakpoint;

// The PDP-11's BPT instruction.
const BPT_LOW: u8 = 3;

const BPT_HIGH: u8 = 0;

// Stores the bytes low and high at address a.
fn put_word(bytes: &mut [u8], a: usize, low: u8, high: u8)
    requires { a + 1 < length bytes.old }
    ensures { bytes.new ≡ put_word a low high bytes.old }
{
    bytes[a] = low;
    bytes[a + 1] = high;
}

// Stores the byte of address i in a part of memory that starts at address at, if it is in there.
#[tactic(auto, unfolding(crate::specs::Seen::overlay_saved_byte))]
fn overlay_saved_byte(out: &mut [u8], at: usize, i: usize, v: u8)
    ensures { out.new ≡ overlay_saved_byte at i v out.old }
{
    if at <= i {
        let j = i - at;
        if j < out.len() {
            out[j] = v;
        }
    }
}

impl Breakpoint {
    pub fn is_planted(self) -> bool
        ensures { result ≡ is_planted self }
    {
        !self.lifted && self.setter != 0
    }

    // Puts the saved word back, if the breakpoint is planted.
    #[tactic(auto, unfolding(crate::specs::Seen::restored))]
    pub fn restore(self, bytes: &mut [u8])
        requires { in_use self ≡ true → self.address + 1 < length bytes.old }
        ensures { bytes.new ≡ restored self bytes.old }
    {
        if self.is_planted() {
            put_word(bytes, self.address as usize, self.low, self.high);
        }
    }

    // Exchanges the saved word and the word in memory, if the breakpoint is planted.
    #[tactic(auto, unfolding(crate::specs::Seen::restored, crate::specs::Seen::saved_from))]
    pub fn exchange(self, bytes: &mut [u8]) -> Self
        requires { in_use self ≡ true → self.address + 1 < length bytes.old }
        ensures value { result ≡ saved_from bytes.old self }
        ensures bytes_after { bytes.new ≡ restored self bytes.old }
    {
        if self.is_planted() {
            let a = self.address as usize;
            let low = bytes[a];
            let high = bytes[a + 1];
            put_word(bytes, a, self.low, self.high);
            return self.with_saved(low, high);
        }
        self
    }

    // Plants the breakpoint: saves the word at its address, and stores a BPT there.
    pub fn plant(self, bytes: &mut [u8]) -> Self
        requires { self.address + 1 < length bytes.old }
        ensures value { result ≡ planted bytes.old self }
        ensures bytes_after { bytes.new ≡ bpt_stored self bytes.old }
    {
        let a = self.address as usize;
        let low = bytes[a];
        let high = bytes[a + 1];
        put_word(bytes, a, BPT_LOW, BPT_HIGH);
        self.with_saved(low, high).with_planted()
    }

    // Lays the saved word over a part of memory that starts at address at, if the breakpoint is planted.
    #[tactic(auto, unfolding(crate::specs::Seen::overlay_saved_word))]
    pub fn overlay_saved_word(self, at: usize, out: &mut [u8])
        ensures { out.new ≡ overlay_saved_word at self out.old }
    {
        if self.is_planted() {
            let a = self.address as usize;
            overlay_saved_byte(out, at, a, self.low);
            overlay_saved_byte(out, at, a + 1, self.high);
        }
    }
}
