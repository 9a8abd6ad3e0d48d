// What is proved of texts. These functions do nothing: each one's contract is a theorem, so that the check of this crate includes it.
ghost use Rattle.recording.specs.Line.{TellsWhy};
ghost use Rattle.recording.specs.Transcript.{FollowsLines, InBlocks};

// `feed` prints what the lines of the text print, each as a whole line, however long it is and in whatever blocks it comes.
pub fn follows_lines()
    ensures { FollowsLines }
{}

// Blocks one after another are one text.
pub fn in_blocks()
    ensures { InBlocks }
{}

// A line `why ` and pairs tells of the whole message, however long it is.
pub fn tells_why()
    ensures { TellsWhy }
{}
