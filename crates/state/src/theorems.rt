// What is proved of the state. These functions do nothing: each one's contract is a theorem, so that the check of this crate
// includes it.
ghost use Rattle.state.specs.Theorems.{TestIsSound, FreshIsSound, ProcessesApart};

// The test of soundness passes exactly the sound states.
pub fn test_is_sound()
    ensures { TestIsSound }
{}

// Every fresh start with right sizes is sound.
pub fn fresh_is_sound()
    ensures { FreshIsSound }
{}

// Each process has its own bytes of the one memory, and there are no gaps between them.
pub fn processes_are_apart()
    ensures { ProcessesApart }
{}
