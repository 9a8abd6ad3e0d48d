// What is proved of reading and writing pairs. This function does nothing: its contract is a theorem, so that the check of this crate
// includes it.
ghost use Rattle.lines.specs.Theorems.{ReadsPairs};

// Bytes written as pairs are read as they were, only their written form is read as them, and a line may come in parts.
pub fn reads_pairs()
    ensures { ReadsPairs }
{}
