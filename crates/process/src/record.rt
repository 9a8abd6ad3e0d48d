// The process record. Whatever makes a record or writes one anew stands in this file, so that a new field changes it alone.
ghost use Rattle.std.specs.Prelude.{◌≡◌, ◌<◌};
ghost use Rattle.process.specs.Sizes.{entry_count};
ghost use Rattle.process.specs.Record.{fresh, with_run, with_host, with_vector, with_entry, emptied, with_number, with_session, owing, watched_by, going};
ghost use Rattle.session.specs.Session.{no_session};
ghost use Rattle.process.specs.Request.{pc};

use breakpoints::Breakpoint;
use run_state::Run;
use session::{Go, Owed, Session};

// The number of entries of a process, of its bytes at the most, and of its vector's bytes.
pub const ENTRIES: usize = 8;

pub const MEMORY_BYTES: usize = 4096;

pub const VECTOR_BYTES: usize = 18;

// What is known of a process. Host 0 means nobody; its bytes are as many as its size says; the vector is R0 to R5, SP, PC, PS; the number is
// that of its breakpoints.
// The methods take the record and its bytes apart, and no struct with an invariant holds both: what a request leaves is sound only where more was
// asked of it (SoundStays of specs/), and the theorems of specs/ and the callers' contracts speak of the two.
// Host 0 is a number, and no Option: 0 is what the bytes of a record hold, and what the theorems say of nobody.
#[derive(Clone, Copy)]
pub struct Process {
    pub there: bool,
    pub host: u8,
    pub run: Run,
    pub vector: [u16; 9],
    pub breaks: [Breakpoint; ENTRIES],
    pub size: u16,
    pub session: Session,
    pub number: u8,
}

impl Process {
    // A record with a zero vector, no breakpoints and nothing of a debugging session.
    #[tactic(auto, unfolding(crate::specs::Record::fresh))]
    pub fn fresh(there: bool, host: u8, run: Run, size: u16) -> Self
        ensures { result ≡ fresh there host run size }
    {
        Process {
            there,
            host,
            run,
            vector: [0; 9],
            breaks: [Breakpoint::free(); ENTRIES],
            size,
            session: Session::none(),
            number: 0,
        }
    }

    pub(crate) fn pc(self) -> u16
        ensures { result ≡ pc self }
    {
        self.vector[7]
    }

    pub(crate) fn with_host(mut self, host: u8) -> Self
        ensures { result ≡ with_host host self }
    {
        self.host = host;
        self
    }

    pub(crate) fn with_run(mut self, run: Run) -> Self
        ensures { result ≡ with_run run self }
    {
        self.run = run;
        self
    }

    pub(crate) fn with_vector(mut self, vector: [u16; 9]) -> Self
        ensures { result ≡ with_vector vector self }
    {
        self.vector = vector;
        self
    }

    // With another breakpoint in entry k.
    pub(crate) fn with_entry(mut self, k: usize, b: Breakpoint) -> Self
        requires { k < entry_count }
        ensures { result ≡ with_entry k b self }
    {
        self.breaks[k] = b;
        self
    }

    pub(crate) fn without_session(mut self) -> Self
        ensures { result ≡ with_session no_session self }
    {
        self.session = Session::none();
        self
    }

    // With another owed answer.
    pub(crate) fn owing(mut self, owed: Owed) -> Self
        ensures { result ≡ owing owed self }
    {
        self.session = self.session.with_owed(owed);
        self
    }

    // With another Go.
    pub(crate) fn going(mut self, go: Go) -> Self
        ensures { result ≡ going go self }
    {
        self.session = self.session.with_go(go);
        self
    }

    // With another watcher.
    pub(crate) fn watched_by(mut self, host: u8) -> Self
        ensures { result ≡ watched_by host self }
    {
        self.session = self.session.with_watcher(host);
        self
    }

    pub(crate) fn without_breaks(mut self) -> Self
        ensures { result ≡ emptied self }
    {
        self.breaks = [Breakpoint::free(); ENTRIES];
        self.number = 0;
        self
    }

    // With another number of breakpoints.
    pub(crate) fn with_number(mut self, number: u8) -> Self
        ensures { result ≡ with_number number self }
    {
        self.number = number;
        self
    }
}
