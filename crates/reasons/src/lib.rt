// Why a request is refused: the first test that fails, with the facts that go with it. Knows nothing of processes and messages.
#![tactic(auto)]

ghost use Rattle.std.specs.Prelude.{◌≡◌};
ghost use Rattle.reasons.specs.Reason.{limit_number, reason_number, two_facts};

// Which limit a request passes.
#[derive(Clone, Copy, PartialEq, Eq)]
pub enum Limit {
    // The end of the process's memory, or of the vector.
    End,
    // The 256 bytes of an EXAMINE.
    Count,
    // The last address of a BREAK.
    Last,
}

// Granted, or the first test that fails and its facts.
#[derive(Clone, Copy, PartialEq, Eq)]
pub enum Reason {
    Granted,
    // 3: the length of the message.
    Length(usize),
    // 8: the host that debugs the process; 0 is nobody.
    Debugger(u8),
    // 9: the number of the run state.
    RunState(u8),
    // 10: the limit, and by how much it is passed; 0 where the address is only odd.
    Past(Limit, u32),
    // 11: 8 where all eight entries are used, else 4.
    Full(u8),
    // 15: the host that watches the process.
    Watcher(u8),
    // 16: the host that set the breakpoint.
    Setter(u8),
    // Any other test, by its number alone.
    Other(u8),
}

impl Limit {
    // Its number, in the order above.
    pub fn number(self) -> u8
        ensures { result ≡ limit_number self }
    {
        match self {
            Limit::End => 0,
            Limit::Count => 1,
            Limit::Last => 2,
        }
    }
}

impl Reason {
    // The number of the test; 0 is granted.
    pub fn number(self) -> u8
        ensures { result ≡ reason_number self }
    {
        match self {
            Reason::Granted => 0,
            Reason::Length(_) => 3,
            Reason::Debugger(_) => 8,
            Reason::RunState(_) => 9,
            Reason::Past(_, _) => 10,
            Reason::Full(_) => 11,
            Reason::Watcher(_) => 15,
            Reason::Setter(_) => 16,
            Reason::Other(n) => n,
        }
    }

    // Its facts as two numbers, 0 where there is none.
    #[tactic(auto, unfolding(crate::specs::Reason::two_facts, crate::specs::Reason::facts_of))]
    pub fn facts(self) -> [u64; 2]
        ensures { result ≡ two_facts self }
    {
        match self {
            Reason::Granted | Reason::Other(_) => [0, 0],
            Reason::Length(n) => [n as u64, 0],
            Reason::Past(limit, excess) => [limit.number() as u64, excess as u64],
            Reason::Debugger(n)
            | Reason::RunState(n)
            | Reason::Full(n)
            | Reason::Watcher(n)
            | Reason::Setter(n) => [n as u64, 0],
        }
    }
}
