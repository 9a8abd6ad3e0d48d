// Whether a process record is sound.
ghost use Rattle.std.specs.Prelude.{◌≡◌, true, ◌<◌, eqb, ltb};
ghost use Rattle.breakpoints.specs.declared.entry_query.EntryQuery.TheVariants.{Lifted};
ghost use Rattle.lists.specs.Every.{below};
ghost use Rattle.process.specs.Find.{find};
ghost use Rattle.process.specs.Sizes.{entry_count, valid_size};
ghost use Rattle.process.specs.Record.{entry, count_used};
ghost use Rattle.process.specs.Local.{extent};
ghost use Rattle.process.specs.Sound.{absent_has_no_host, address_is_unique, lift_sound, setter_sound, entry_sound, keeps_rules, sound_test};
ghost use Rattle.breakpoints.specs.Entry.{in_use};

use crate::record::Process;
use breakpoints::{Breakpoint, EntryQuery, valid_break_address};

// Whether a process may have this size: it is even, and 2 to 4,096.
#[tactic(auto, unfolding(crate::specs::Sizes::valid_size))]
pub fn valid_size(size: u16) -> bool
    ensures { result ≡ valid_size size }
{
    size % 2 == 0 && 2 <= size && size <= 4096
}

impl Process {
    // How many bytes the process has: as many as its size says, or none if it is absent.
    pub fn extent(self) -> usize
        ensures { result ≡ extent self }
    {
        if self.there { self.size as usize } else { 0 }
    }

    #[tactic(auto, unfolding(crate::specs::Sound::absent_has_no_host))]
    fn absent_has_no_host(self) -> bool
        ensures { result ≡ absent_has_no_host self }
    {
        self.there || self.host == 0
    }

    // Entry k, which is in use, is not lifted, or the process is stepping or passing and no earlier entry is lifted.
    #[tactic(auto, unfolding(crate::specs::Sound::lift_sound))]
    fn lift_sound(self, k: usize, lifted: bool, earlier: bool) -> bool
        requires { (k < entry_count) × (in_use (entry self k) ≡ true) × (lifted ≡ (entry self k).lifted) × (earlier ≡ ltb (find Lifted self) k) }
        ensures { result ≡ lift_sound self k }
    {
        !lifted || (!earlier && self.run.stepping_or_passing())
    }

    // Who set entry k is the host that debugs the process, or its watcher.
    #[tactic(auto, unfolding(crate::specs::Sound::setter_sound))]
    fn setter_sound(self, k: usize, setter: u8) -> bool
        requires { setter ≡ (entry self k).setter }
        ensures { result ≡ setter_sound self k }
    {
        setter == self.host || (setter != 0 && setter == self.session.watcher)
    }

    // No entry before k, which is in use, has its address: those before it alone are looked at.
    fn address_is_unique(self, k: usize, address: u16) -> bool
        requires k_lt_entry_count { k < entry_count }
        requires k_value { in_use (entry self k) ≡ true }
        requires address_value { address ≡ (entry self k).address }
        ensures { result ≡ address_is_unique self k }
    {
        let query = EntryQuery::At(address);
        for b in &self.breaks[..k] {
            if b.matches(query) {
                return false;
            }
        }
        true
    }

    // Entry k, which is b, is free, or keeps the rules. `earlier` says that an earlier entry is lifted.
    #[tactic(auto, unfolding(crate::specs::Sound::entry_sound, crate::specs::Sound::used_sound))]
    fn entry_sound(self, k: usize, b: Breakpoint, earlier: bool) -> bool
        requires k_lt_entry_count { k < entry_count }
        requires b_value { b ≡ entry self k }
        requires earlier_value { earlier ≡ ltb (find Lifted self) k }
        ensures { result ≡ entry_sound self k }
    {
        b.setter == 0
            || (self.host != 0
                && self.setter_sound(k, b.setter)
                && valid_break_address(self.size, b.address)
                && self.address_is_unique(k, b.address)
                && self.lift_sound(k, b.lifted, earlier))
    }

    // The number is that of the entries in use. It ends at the first entry that is one too many.
    fn number_is_right(self) -> bool
        ensures { result ≡ eqb self.number (count_used self.breaks) }
    {
        let mut left = self.number;
        for b in &self.breaks {
            if b.setter != 0 {
                if left == 0 {
                    return false;
                }
                left -= 1;
            }
        }
        left == 0
    }

    // Whether every entry keeps the rules. What is asked of one is handed on, also that one was lifted, so that no entry is searched for twice.
    fn entries_sound(self) -> bool
        ensures { result ≡ below (entry_sound self) entry_count }
    {
        let mut earlier = false;
        for (k, b) in self.breaks.iter().enumerate() {
            if !self.entry_sound(k, *b, earlier) {
                return false;
            }
            earlier = b.lifted_or(earlier);
        }
        true
    }

    // Whether the record keeps the rules, whatever its size.
    #[tactic(auto, unfolding(crate::specs::Sound::keeps_rules))]
    fn keeps_rules(self) -> bool
        ensures { result ≡ keeps_rules self }
    {
        self.absent_has_no_host()
            && self.session.sound(self.host)
            && self.number_is_right()
            && self.entries_sound()
    }

    // Whether the record is sound.
    #[tactic(auto, unfolding(crate::specs::Sound::sound_test))]
    pub fn sound(self) -> bool
        ensures { result ≡ sound_test self }
    {
        valid_size(self.size) && self.keeps_rules()
    }
}
