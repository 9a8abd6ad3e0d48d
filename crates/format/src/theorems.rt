// What is proved of the answers' cases. These functions do nothing: each one's contract is a theorem, so that the check of this crate
// includes it.
ghost use Rattle.format.specs.Outcome.{OutcomesFit, ReadingsFit};

// The number and the length of each outcome are those that it was made of.
pub fn outcomes_fit()
    ensures { OutcomesFit }
{}

// The number and the fields of each reading are those that it was made of.
pub fn readings_fit()
    ensures { ReadingsFit }
{}
