// The requests of a line, each a single character. They are numbers, and no enum: a line has any letter, and the rules (text_rule_of) speak of
// every number. text_door has the enum of what a known one asks for.
ghost use Rattle.std.specs.Prelude.{◌≡◌};
ghost use Rattle.fields.specs.Letters.{known};

// A word of code is read.
pub const READ_CODE: u8 = b'i';

// A word of data is read.
pub const READ_DATA: u8 = b'd';

// A word of code is written.
pub const WRITE_CODE: u8 = b'I';

// A word of data is written.
pub const WRITE_DATA: u8 = b'D';

// A register is read.
pub const READ_REGISTER: u8 = b'r';

// A register is written.
pub const WRITE_REGISTER: u8 = b'R';

// The process goes on.
pub const CONTINUE: u8 = b'c';

// The process takes one step.
pub const STEP: u8 = b's';

// Whether a character is one of these eight.
#[tactic(auto, unfolding(crate::specs::Letters::known))]
pub fn is_known(c: u8) -> bool
    ensures { result ≡ known c }
{
    matches!(
        c,
        READ_CODE
            | READ_DATA
            | WRITE_CODE
            | WRITE_DATA
            | READ_REGISTER
            | WRITE_REGISTER
            | CONTINUE
            | STEP
    )
}
