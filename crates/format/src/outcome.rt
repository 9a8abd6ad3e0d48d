// What a call answers: `Ok` with what it grants, or the refusal by the first test that failed.
ghost use Rattle.std.specs.Prelude.{◌≡◌};
ghost use Rattle.format.specs.Outcome.{number_of};

// A refusal, by the number of the test that failed. The calls give the numbers below and no other. It is a number with a type, and no enum, since
// every number makes a refusal and is read from it again (`outcomes_fit`, `readings_fit`).
#[derive(Clone, Copy)]
pub struct Refusal(pub u8);

impl Refusal {
    // What is lent is too short, or has not the length that it must have.
    pub const LENT: Refusal = Refusal(1);

    // The bytes are not those of a sound state; of a fresh start, a size is wrong.
    pub const STATE: Refusal = Refusal(2);

    // The length of what was sent.
    pub const LENGTH: Refusal = Refusal(3);

    // The fixed fields of its header.
    pub const HEADER: Refusal = Refusal(4);

    // Its op code, or its kind.
    pub const CODE: Refusal = Refusal(5);

    // A field that is not used, a size, or the length of the string.
    pub const FORM: Refusal = Refusal(6);

    // There is no such process.
    pub const PROCESS: Refusal = Refusal(7);

    // The asker has not the right.
    pub const RIGHT: Refusal = Refusal(8);

    // The run state of the process.
    pub const RUN_STATE: Refusal = Refusal(9);

    // What is asked for lies outside the process or its vector.
    pub const RANGE: Refusal = Refusal(10);

    // There is no free entry for a breakpoint.
    pub const ENTRY: Refusal = Refusal(11);

    // There is no breakpoint.
    pub const BREAKPOINT: Refusal = Refusal(12);

    // There is no place for a new process.
    pub const PLACE: Refusal = Refusal(13);

    // There is no such report.
    pub const REPORT: Refusal = Refusal(14);

    // Another host watches.
    pub const WATCHER: Refusal = Refusal(15);

    // Another host set the breakpoint.
    pub const SETTER: Refusal = Refusal(16);

    // Of a text line 100 and the error number of its answer: the asker has not the right.
    pub const TEXT_RIGHT: Refusal = Refusal(101);

    // There is no such process.
    pub const TEXT_PROCESS: Refusal = Refusal(103);

    // What is asked for lies outside the process, or there is no such register.
    pub const TEXT_RANGE: Refusal = Refusal(114);

    // An answer is owed.
    pub const TEXT_OWED: Refusal = Refusal(116);

    // The line is not whole, or it asks for what cannot be.
    pub const TEXT_LINE: Refusal = Refusal(122);
}

// The number that a call returns; 0 is granted.
pub fn number_of(outcome: Result<usize, Refusal>) -> u8
    ensures { result ≡ number_of outcome }
{
    match outcome {
        Ok(_) => 0,
        Err(refusal) => refusal.0,
    }
}
