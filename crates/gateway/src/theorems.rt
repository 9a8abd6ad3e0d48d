// What is proved of the gateway. These functions do nothing: each one's contract is a theorem, so that the check of this
// crate includes it.
ghost use Rattle.gateway.specs.Demands.{Demands};
ghost use Rattle.gateway.specs.Lengths.{Lengths};

// Calls of this crate on bytes, one after another with stores by the machine between them, are a run of the rules, from a fresh start or
// wherever the tests 1 and 2 pass; so demand 1, the rights, demand 3, what CREATE and DESTROY do to the one memory, the ledger of its bytes,
// that breakpoints in loops come back, that a granted `c` or `s` is answered at most once, what owner and installer together may rely on, that the
// number of breakpoints is true, and when a process with a waiting Go runs hold of them. What one call answers and leaves is `Did`, which the
// contracts of `request`, `report`, `text_line`, `packet` and `tick` ensure.
pub fn demands()
    ensures { Demands }
{}

// `reply_length`, `notice_length` and `line_length` count what a call wrote, and so does the length of its line that a report returns: no byte
// after it, and every byte before.
pub fn lengths()
    ensures { Lengths }
{}
