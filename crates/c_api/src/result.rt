// What a call returns.
ghost use Rattle.std.specs.Prelude.{◌≡◌};
ghost use Rattle.c_api.specs.Called.{minus, Short, signed, both_lengths};

use format::Refusal;
use gateway::Told;

// Minus this number.
pub(crate) fn minus(n: u8) -> i64
    ensures { result ≡ minus n }
{
    0 - n as i64
}

// The length granted, or minus the number of the refusal.
pub(crate) fn signed(outcome: Result<usize, Refusal>) -> i64
    requires { Short outcome }
    ensures { result ≡ signed outcome }
{
    match outcome {
        Ok(n) => n as i64,
        Err(refusal) => minus(refusal.0),
    }
}

// Both lengths of a report as one: that of the notice, and 256 times that of the line.
pub(crate) fn both_lengths(told: Told) -> Result<usize, Refusal>
    requires { Short (both_lengths told.outcome told.line) }
    ensures { result ≡ both_lengths told.outcome told.line }
{
    match told.outcome {
        Ok(n) => Ok(n + 256 * told.line),
        Err(refusal) => Err(refusal),
    }
}
