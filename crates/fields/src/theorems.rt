// What is proved of reading and writing lines. These functions do nothing: their contracts are theorems, so that the check of this crate
// includes them.
ghost use Rattle.fields.specs.Theorems.{ReadsLines, ReadsAnswers, ReadsHeads, ShortLines};

// Reading a written line gives its meaning, and no other line does.
pub fn reads_lines()
    ensures { ReadsLines }
{}

// Reading the line of an answer gives its meaning, and no other line does.
pub fn reads_answers()
    ensures { ReadsAnswers }
{}

// What is read of a line that is not whole: a number and a letter at its start, and nothing else.
pub fn reads_heads()
    ensures { ReadsHeads }
{}

// No line is longer than 35 bytes.
pub fn short_lines()
    ensures { ShortLines }
{}
