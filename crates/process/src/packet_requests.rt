// What the packets of the Pup door, and its ticks, do to the process of the door. The gateway has tested before that the record is sound, that the
// process has all its bytes, and what the packet itself asks.
ghost use Rattle.std.specs.Prelude.{◌≡◌, true, ◌+◌, ◌≤◌, length};
ghost use Rattle.process.specs.Local.{local, Tested};
ghost use Rattle.process.specs.Packet.{go_of, without_go, go_asked, go_ended, go_replied, ticked, word_stored};

use crate::record::Process;
use run_state::Run;
use session::Go;
use words::{high_byte, low_byte};

impl Process {
    // No Go waits any more.
    pub fn without_go(self) -> Self
        ensures { result ≡ without_go self }
    {
        self.going(Go::none())
    }

    // A Go of this ID: one of the ID that waits already goes on counting.
    #[tactic(auto, unfolding(crate::specs::Packet::go_asked))]
    pub fn ask_go(self, id: u32) -> Self
        ensures { result ≡ go_asked id self }
    {
        if self.session.go.waits_for(id) {
            return self;
        }
        self.going(Go::new(id))
    }

    // The Go ends, and the process runs if RESUME would be granted.
    #[tactic(auto, unfolding(crate::specs::Packet::go_ended))]
    fn end_go(self) -> Self
        ensures { result ≡ go_ended self }
    {
        let p = self.without_go();
        if self.run.stopped_or_at_break() {
            return p.with_run(Run::Running);
        }
        p
    }

    // A GoReply of this ID: that of the next ID after the Go that waits ends it, any other abandons it.
    #[tactic(auto, unfolding(crate::specs::Packet::go_replied))]
    pub fn reply_go(self, id: u32) -> Self
        ensures { result ≡ go_replied id self }
    {
        if self.session.go.is_answered_by(id) {
            return self.end_go();
        }
        self.without_go()
    }

    // A tick: at the hundredth the Go ends.
    #[tactic(auto, unfolding(crate::specs::Packet::ticked))]
    pub fn tick(self) -> Self
        requires { (go_of self).waits ≡ true → (go_of self).ticks ≤ 99 }
        ensures { result ≡ ticked self }
    {
        let go = self.session.go;
        if !go.waits {
            return self;
        }
        if go.is_last_tick() {
            return self.end_go();
        }
        self.going(go.ticked())
    }

    // A Store of this word, whose first byte has this address.
    #[tactic(auto, unfolding(crate::specs::Packet::word_stored))]
    pub fn store_word(self, bytes: &mut [u8], first: usize, word: u16) -> Self
        requires tested { Tested self bytes.old }
        requires first_in_bounds { first + 2 ≤ length bytes.old }
        ensures value { result ≡ (word_stored first word (local self bytes.old)).process }
        ensures bytes_after { bytes.new ≡ (word_stored first word (local self bytes.old)).bytes }
    {
        let pair = [low_byte(word), high_byte(word)];
        let p = self.deposit(bytes, first, &pair);
        p.without_go()
    }
}
