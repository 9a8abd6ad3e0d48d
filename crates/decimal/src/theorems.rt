// What is proved of reading and writing numbers. This function does nothing: its contract is a theorem, so that the check of this crate
// includes it.
ghost use Rattle.decimal.specs.Theorems.{ReadsNumbers};

// A number is read from its numeral, and from nothing else.
pub fn reads_numbers()
    ensures { ReadsNumbers }
{}
