// What is proved of a process by itself. These functions do nothing: each one's contract is a theorem, so that the check of this
// crate includes it.
ghost use Rattle.process.specs.Theorems.{TestIsSound, DepositIsSeen, SeenStays, EndDebugRestores, EndWatchRemoves, StoreIsUnseen, RunningIsPlanted, SoundStays};

// The test of soundness passes exactly the sound records.
pub fn test_is_sound()
    ensures { TestIsSound }
{}

// What is deposited is what is examined, and every other seen byte is as before, planted words or not.
pub fn deposit_is_seen()
    ensures { DepositIsSeen }
{}

// BREAK, UNBREAK, END WATCH, lifting, planting again and a silent pass change no seen byte.
pub fn seen_stays()
    ensures { SeenStays }
{}

// After END DEBUG memory is what was seen, and no breakpoint is left.
pub fn end_debug_restores()
    ensures { EndDebugRestores }
{}

// After END WATCH none of the watcher's breakpoints is left, the words of the planted ones are what was seen there, and all else stays.
pub fn end_watch_removes()
    ensures { EndWatchRemoves }
{}

// What the machine stores into a planted word is not seen.
pub fn store_is_unseen()
    ensures { StoreIsUnseen }
{}

// While a sound process runs, every breakpoint of it is planted.
pub fn running_is_planted()
    ensures { RunningIsPlanted }
{}

// A sound record stays sound under every request, report, packet and tick.
pub fn sound_stays()
    ensures { SoundStays }
{}
