// Planting, lifting, and planting again.
ghost use Rattle.std.specs.Prelude.{◌≡◌, ◌+◌, ◌<◌, length};
ghost use Rattle.process.specs.Sizes.{entry_count};
ghost use Rattle.process.specs.Local.{local, Inside};
ghost use Rattle.process.specs.Planting.{planted_in, lifted_in, replanted, lifted_at};

use crate::record::Process;
use breakpoints::{Breakpoint, EntryQuery};

impl Process {
    // Plants a breakpoint, and puts it into entry k.
    #[tactic(auto, unfolding(crate::specs::Planting::planted_in))]
    pub(crate) fn plant_in(self, k: usize, b: Breakpoint, bytes: &mut [u8]) -> Self
        requires { (k < entry_count) × (b.address + 1 < length bytes.old) }
        ensures value { result ≡ (planted_in k b (local self bytes.old)).process }
        ensures bytes_after { bytes.new ≡ (planted_in k b (local self bytes.old)).bytes }
    {
        self.with_entry(k, b.plant(bytes))
    }

    // Lifts the breakpoint in entry k: its word is put back until the process next stops.
    #[tactic(auto, unfolding(crate::specs::Planting::lifted_in))]
    pub(crate) fn lift_in(self, k: usize, bytes: &mut [u8]) -> Self
        requires { (k < entry_count) × Inside self bytes.old }
        ensures value { result ≡ (lifted_in k (local self bytes.old)).process }
        ensures bytes_after { bytes.new ≡ (lifted_in k (local self bytes.old)).bytes }
    {
        let b = self.breaks[k];
        b.restore(bytes);
        self.with_entry(k, b.with_lifted())
    }

    // Plants the lifted breakpoint again, if there is one.
    #[tactic(auto, unfolding(crate::specs::Planting::replanted))]
    pub(crate) fn replant(self, bytes: &mut [u8]) -> Self
        requires { Inside self bytes.old }
        ensures value { result ≡ (replanted (local self bytes.old)).process }
        ensures bytes_after { bytes.new ≡ (replanted (local self bytes.old)).bytes }
    {
        let Some(k) = self.find(EntryQuery::Lifted) else {
            return self;
        };
        self.plant_in(k, self.breaks[k], bytes)
    }

    // Lifts the breakpoint at pc, if there is one.
    #[tactic(auto, unfolding(crate::specs::Planting::lifted_at))]
    pub(crate) fn lift_at(self, pc: u16, bytes: &mut [u8]) -> Self
        requires { Inside self bytes.old }
        ensures value { result ≡ (lifted_at pc (local self bytes.old)).process }
        ensures bytes_after { bytes.new ≡ (lifted_at pc (local self bytes.old)).bytes }
    {
        let Some(k) = self.find(EntryQuery::At(pc)) else {
            return self;
        };
        self.lift_in(k, bytes)
    }
}
