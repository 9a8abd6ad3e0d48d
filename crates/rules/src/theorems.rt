// What is proved of the rules. These functions do nothing: each one's contract is a theorem, so that the check of this crate
// includes it.
ghost use Rattle.rules.specs.Total.{Total};
ghost use Rattle.rules.specs.Rights.{Rights};
ghost use Rattle.rules.specs.OneMemory.{OneMemory};
ghost use Rattle.rules.specs.Ledger.{Ledger};
ghost use Rattle.rules.specs.Loops.{Loops};
ghost use Rattle.rules.specs.Owed.{OwedAnswers};
ghost use Rattle.rules.specs.Watch.{Watching};
ghost use Rattle.rules.specs.Status.{HowManySet};
ghost use Rattle.rules.specs.Waiting.{Waiting};
ghost use Rattle.rules.specs.WhyRight.{WhyRight};
ghost use Rattle.rules.specs.Together.{Isolation};

// Every call is answered by the number of the first test that fails, or granted where none does; a refusal changes nothing; a sound state
// stays sound.
pub fn total()
    ensures { Total }
{}

// A process changes only by a request, a text line or a packet of a host that debugs or watches it before the call or after it, by a report, by a store
// or by a tick at it; a right begins only where nobody has one, and ends only by its holder.
pub fn rights()
    ensures { Rights }
{}

// Over whole lists of calls, hosts learn nothing of processes that they neither debug nor watch, and leave no trace there: any set of hosts and
// any set of processes, also where one is created again for them; and one host and one process, in the words of the rules.
pub fn isolation()
    ensures { Isolation }
{}

// All processes lie in one memory: free bytes are not read, CREATE is refused with 13 exactly where there is no place, a DESTROY moves the
// others unchanged and zeroes what it frees, and nothing of a destroyed process is left.
pub fn one_memory()
    ensures { OneMemory }
{}

// Free bytes and the sizes that calls and answers tell make 16,384, over lists of any length.
pub fn ledger()
    ensures { Ledger }
{}

// Breakpoints in loops come back: while a process runs, every breakpoint of it is planted; one with a remaining count is passed that many
// times and nothing is sent, and then it sends the notice every time, whatever else is called meanwhile.
pub fn loops()
    ensures { Loops }
{}

// Owed answers: a granted `c` or `s` writes nothing at once, and is answered at most once, by the first report that stops or ends the process,
// unless it is cancelled before; no line is sent for anything else.
pub fn owed_answers()
    ensures { OwedAnswers }
{}

// Owner and installer together: a watch begins by a granted WATCH alone and ends by the watcher or by the host that debugs; a breakpoint keeps its
// address and who set it until he removes it or the debugging or his watch ends; a watcher changes nothing that is seen; who set a breakpoint
// is told there, of all else the host that debugs, and nobody besides.
pub fn watching()
    ensures { Watching }
{}

// How many are set: the number in a record is that of its breakpoints after every call, and STATUS answers it and the run state, to the host that
// debugs the process or watches it, and changes nothing.
pub fn how_many_set()
    ensures { HowManySet }
{}

// A Go that waits: after a granted one the process runs at the hundredth tick and no sooner if only Gos of that ID come and nothing else changes the
// process; or on the GoReply of the next ID. Any other granted packet abandons it, and so do END DEBUG and DESTROY.
pub fn waiting()
    ensures { Waiting }
{}

// Why a request would be refused: the test is the one that the request itself would fail, each fact is right, nothing changes, and a host that may not
// see inside is told nothing from inside.
pub fn why_right()
    ensures { WhyRight }
{}
