// An entry of a process. Whatever makes one or writes one anew stands in this file, so that a new field changes it alone.
ghost use Rattle.std.specs.Prelude.{◌≡◌};
ghost use Rattle.breakpoints.specs.Entry.{free, breakpoint_at, with_count, with_saved, with_lifted, with_planted, is_set_by, valid_break_address};

// One of the eight entries of a process. A planted breakpoint, that is one in use and not lifted, has 3, 0 stored at its
// address and the word that was there saved; a lifted one has its word back in memory for one instruction, until the process next
// stops or reports. The setter is the host that set it; of a free entry it is 0.
// The setter is a number, and no Option: 0 is what the bytes of a free entry hold, and what the theorems of specs/ say of one.
#[derive(Clone, Copy)]
pub struct Breakpoint {
    pub lifted: bool,
    pub setter: u8,
    pub address: u16,
    pub count: u16,
    pub low: u8,
    pub high: u8,
}

impl Breakpoint {
    // An entry that is not in use.
    pub fn free() -> Self
        ensures { result ≡ free }
    {
        Breakpoint {
            lifted: false,
            setter: 0,
            address: 0,
            count: 0,
            low: 0,
            high: 0,
        }
    }

    // A new breakpoint that this host sets, lifted until it is planted.
    pub fn at(address: u16, count: u16, host: u8) -> Self
        ensures { result ≡ breakpoint_at address count host }
    {
        Breakpoint {
            lifted: true,
            setter: host,
            address,
            count,
            low: 0,
            high: 0,
        }
    }

    pub fn with_count(mut self, count: u16) -> Self
        ensures { result ≡ with_count count self }
    {
        self.count = count;
        self
    }

    pub fn with_saved(mut self, low: u8, high: u8) -> Self
        ensures { result ≡ with_saved low high self }
    {
        self.low = low;
        self.high = high;
        self
    }

    pub fn with_lifted(mut self) -> Self
        ensures { result ≡ with_lifted self }
    {
        self.lifted = true;
        self
    }

    // Whether this host set it.
    #[tactic(auto, unfolding(crate::specs::Entry::is_set_by))]
    pub fn is_set_by(self, host: u8) -> bool
        ensures { result ≡ is_set_by host self }
    {
        self.setter != 0 && self.setter == host
    }

    pub(crate) fn with_planted(mut self) -> Self
        ensures { result ≡ with_planted self }
    {
        self.lifted = false;
        self
    }
}

// Whether a breakpoint may stand at this address of a process of this size: it is even, and the word there is inside.
#[tactic(auto, unfolding(crate::specs::Entry::valid_break_address))]
pub fn valid_break_address(size: u16, a: u16) -> bool
    ensures { result ≡ valid_break_address size a }
{
    a % 2 == 0 && a as usize + 2 <= size as usize
}
