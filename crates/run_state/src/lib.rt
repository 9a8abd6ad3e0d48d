// The run state of a process: its cases, their numbers, every question that is asked of one, and what a machine report of each kind
// makes of it. What is asked of a new run state is answered in this crate alone.
#![tactic(auto)]

ghost use Rattle.std.specs.Prelude.{◌≡◌};
ghost use Rattle.run_state.specs.RunState.{run_number, is_run_number, run_of, moving, passing, stepping_or_passing, stopped_or_at_break, at_break, released, after_pass, goes_on, accepts, run_after};

// The kinds of machine report. They are numbers, and no enum: a report of any kind is answered, and the rules (bad_report, run_after) speak of
// every number.
pub const TRAP: u8 = 0;

pub const HALT: u8 = 1;

pub const BPT: u8 = 2;

pub const TTRAP: u8 = 3;

// The highest number of a run state.
pub const LAST_RUN_NUMBER: u8 = 5;

// What a process is doing. Passing: it executes the one instruction under a breakpoint that was lifted, and then runs.
#[derive(Clone, Copy, PartialEq, Eq)]
pub enum Run {
    Running,
    Stepping,
    Stopped,
    AtBreak,
    Ended,
    Passing,
}

impl Run {
    // Its number, in the order above.
    pub fn number(self) -> u8
        ensures { result ≡ run_number self }
    {
        match self {
            Run::Running => 0,
            Run::Stepping => 1,
            Run::Stopped => 2,
            Run::AtBreak => 3,
            Run::Ended => 4,
            Run::Passing => 5,
        }
    }

    // Running, stepping or passing.
    pub fn moving(self) -> bool
        ensures { result ≡ moving self }
    {
        matches!(self, Run::Running | Run::Stepping | Run::Passing)
    }

    fn passing(self) -> bool
        ensures { result ≡ passing self }
    {
        self == Run::Passing
    }

    // Whether the machine executes one instruction and then reports TTRAP; a breakpoint may be lifted only then.
    pub fn stepping_or_passing(self) -> bool
        ensures { result ≡ stepping_or_passing self }
    {
        matches!(self, Run::Stepping | Run::Passing)
    }

    pub fn stopped_or_at_break(self) -> bool
        ensures { result ≡ stopped_or_at_break self }
    {
        matches!(self, Run::Stopped | Run::AtBreak)
    }

    pub fn at_break(self) -> bool
        ensures { result ≡ at_break self }
    {
        self == Run::AtBreak
    }

    // The run state of a process that nobody debugs any more.
    pub fn released(self) -> Run
        ensures { result ≡ released self }
    {
        match self {
            Run::Ended => Run::Ended,
            _ => Run::Running,
        }
    }

    // The run state of a process that passes a breakpoint without notice: a running one is passing now.
    pub fn after_pass(self) -> Run
        ensures { result ≡ after_pass self }
    {
        match self {
            Run::Running => Run::Passing,
            other => other,
        }
    }

    // Whether a process in this run state goes on after a report of this kind, which nobody is told of: TTRAP while passing.
    #[tactic(auto, unfolding(crate::specs::RunState::goes_on))]
    pub fn goes_on(self, kind: u8) -> bool
        ensures { result ≡ goes_on kind self }
    {
        kind == TTRAP && self.passing()
    }

    // Whether a process in this run state may send a report of this kind.
    #[tactic(auto, unfolding(crate::specs::RunState::accepts))]
    pub fn accepts(self, kind: u8) -> bool
        ensures { result ≡ accepts kind self }
    {
        if kind == TTRAP {
            self.stepping_or_passing()
        } else {
            self.moving()
        }
    }

    // The run state after a report of this kind that stops the process.
    #[tactic(auto, unfolding(crate::specs::RunState::run_after))]
    pub fn after(kind: u8) -> Run
        ensures { result ≡ run_after kind }
    {
        match kind {
            HALT => Run::Ended,
            BPT => Run::AtBreak,
            _ => Run::Stopped,
        }
    }
}

// Whether this is the number of a run state.
pub fn is_run_number(n: u8) -> bool
    ensures { result ≡ is_run_number n }
{
    n <= LAST_RUN_NUMBER
}

// The run state with this number; any other number is read as running.
#[tactic(auto, unfolding(crate::specs::RunState::run_of))]
pub fn run_of(n: u8) -> Run
    ensures { result ≡ run_of n }
{
    match n {
        1 => Run::Stepping,
        2 => Run::Stopped,
        3 => Run::AtBreak,
        4 => Run::Ended,
        5 => Run::Passing,
        _ => Run::Running,
    }
}
