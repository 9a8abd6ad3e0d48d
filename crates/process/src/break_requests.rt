// The requests that set or remove a breakpoint: BREAK and UNBREAK.
ghost use Rattle.std.specs.Prelude.{◌≡◌, true, ◌+◌, ◌<◌, ltb, length};
ghost use Rattle.process.specs.Sizes.{entry_count};
ghost use Rattle.process.specs.Local.{local, Inside};
ghost use Rattle.process.specs.Record.{entry, count_used, recounted};
ghost use Rattle.process.specs.Planting.{removed_from};
ghost use Rattle.process.specs.Request.{entry_for, break_set, count_set_by, may_have_more};
ghost use Rattle.breakpoints.specs.Entry.{in_use};

use crate::record::Process;
use breakpoints::Breakpoint;

impl Process {
    // Sets a breakpoint of this host at this address, with this count, in the entry that was found for it: one that is there gets the count,
    // else one is planted.
    #[tactic(auto, unfolding(crate::specs::Request::break_set))]
    pub fn set_break(self, k: usize, host: u8, a: u16, count: u16, bytes: &mut [u8]) -> Self
        requires { (k < entry_count) × (k ≡ entry_for a self) × (a + 1 < length bytes.old) × (self.number ≡ count_used self.breaks) × (host ≡ 0 → ⊥) }
        ensures value { result ≡ (break_set host a count (local self bytes.old)).process }
        ensures bytes_after { bytes.new ≡ (break_set host a count (local self bytes.old)).bytes }
    {
        let b = self.breaks[k];
        if b.setter != 0 {
            return self.with_entry(k, b.with_count(count));
        }
        self.plant_in(k, Breakpoint::at(a, count, host), bytes)
            .with_number(self.number + 1)
    }

    // Whether this host has set fewer than four breakpoints. At the fourth it stops: a whole count is made to multiply by the optimiser.
    fn has_set_few(self, host: u8) -> bool
        ensures { result ≡ ltb (count_set_by host self.breaks) 4 }
    {
        let mut n = 0u8;
        for b in &self.breaks {
            if b.is_set_by(host) {
                n += 1;
            }
            if n == 4 {
                return false;
            }
        }
        true
    }

    // Whether this host may set one more: while the process is watched, each of the two has at most four.
    #[tactic(auto, unfolding(crate::specs::Request::may_have_more))]
    pub fn may_have_more(self, host: u8) -> bool
        ensures { result ≡ may_have_more host self }
    {
        self.session.watcher == 0 || self.has_set_few(host)
    }

    // Frees entry k, which is in use, and puts its word back if it is planted.
    #[tactic(auto, unfolding(crate::specs::Planting::removed_from))]
    pub fn remove_from(self, k: usize, bytes: &mut [u8]) -> Self
        requires { (k < entry_count) × Inside self bytes.old × (self.number ≡ count_used self.breaks) × (in_use (entry self k) ≡ true) }
        ensures value { result ≡ recounted (removed_from k (local self bytes.old)).process }
        ensures bytes_after { bytes.new ≡ (removed_from k (local self bytes.old)).bytes }
    {
        self.breaks[k].restore(bytes);
        self.with_entry(k, Breakpoint::free())
            .with_number(self.number - 1)
    }
}
