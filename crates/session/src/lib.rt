// What belongs to a debugging session of a process, and ends with it: the answer that is owed to the host of the text lines, the watcher, and the
// Go that waits.
#![tactic(auto)]

ghost use Rattle.std.specs.Prelude.{◌≡◌, ◌<◌};
ghost use Rattle.session.specs.Session.{owed_number, is_owed_number, owed_of, owed_letter, owes, no_go, new_go, ticked_go, waits_for, answers_go, is_last_tick, no_session, with_owed, with_watcher, with_go, owed_sound, watcher_sound, go_sound, session_sound};

use packets::next_id;

// The host that the text lines come from. A host is any number from 1 to 255, and these two are two of them.
pub const TEXT_HOST: u8 = 253;

// The host that the packets come from.
pub const PUP_HOST: u8 = 254;

// The highest number of an owed answer.
pub const LAST_OWED_NUMBER: u8 = 2;

// The answer that is owed: none, or the one to a `c` or an `s`.
#[derive(Clone, Copy, PartialEq, Eq)]
pub enum Owed {
    Nothing,
    Continue,
    Step,
}

// A Go that waits for its GoReply, with the ticks since the first of its ID came; or none.
// A flag, and no Option: the bytes of a state keep ticks and ID also where none waits (session_formed of state_bytes lets them have any), and they
// come back as they were.
#[derive(Clone, Copy)]
pub struct Go {
    pub waits: bool,
    pub ticks: u8,
    pub id: u32,
}

// What belongs to the debugging session of a process.
#[derive(Clone, Copy)]
pub struct Session {
    pub owed: Owed,
    // The host that watches; 0 is nobody. A number, and no Option: 0 is what the bytes hold, and what the theorems of specs/ say of nobody.
    pub watcher: u8,
    pub go: Go,
}

impl Owed {
    // Its number, in the order above.
    pub fn number(self) -> u8
        ensures { result ≡ owed_number self }
    {
        match self {
            Owed::Nothing => 0,
            Owed::Continue => 1,
            Owed::Step => 2,
        }
    }

    // The letter of the request whose answer is owed; where none is, 0, as owed_letter of specs/ has it.
    pub fn letter(self) -> u8
        ensures { result ≡ owed_letter self }
    {
        match self {
            Owed::Nothing => 0,
            Owed::Continue => b'c',
            Owed::Step => b's',
        }
    }

    // Whether an answer is owed.
    pub fn owes(self) -> bool
        ensures { result ≡ owes self }
    {
        self != Owed::Nothing
    }
}

// The owed answer with this number; any other number is read as nothing.
#[tactic(auto, unfolding(crate::specs::Session::owed_of))]
pub fn owed_of(n: u8) -> Owed
    ensures { result ≡ owed_of n }
{
    match n {
        1 => Owed::Continue,
        2 => Owed::Step,
        _ => Owed::Nothing,
    }
}

impl Go {
    // None waits.
    pub fn none() -> Go
        ensures { result ≡ no_go }
    {
        Go {
            waits: false,
            ticks: 0,
            id: 0,
        }
    }

    // One of this ID that has just come.
    pub fn new(id: u32) -> Go
        ensures { result ≡ new_go id }
    {
        Go {
            waits: true,
            ticks: 0,
            id,
        }
    }

    // The same, a tick later.
    pub fn ticked(mut self) -> Go
        requires { self.ticks < 255 }
        ensures { result ≡ ticked_go self }
    {
        self.ticks += 1;
        self
    }

    // Whether a Go of this ID waits.
    #[tactic(auto, unfolding(crate::specs::Session::waits_for))]
    pub fn waits_for(self, id: u32) -> bool
        ensures { result ≡ waits_for id self }
    {
        self.waits && self.id == id
    }

    // Whether a GoReply of this ID answers it.
    #[tactic(auto, unfolding(crate::specs::Session::answers_go))]
    pub fn is_answered_by(self, id: u32) -> bool
        ensures { result ≡ answers_go id self }
    {
        self.waits && next_id(self.id) == id
    }

    // Whether the next tick is the hundredth.
    #[tactic(auto, unfolding(crate::specs::Session::is_last_tick))]
    pub fn is_last_tick(self) -> bool
        ensures { result ≡ is_last_tick self }
    {
        self.ticks == 99
    }
}

impl Session {
    // What a process has that nobody debugs.
    pub fn none() -> Session
        ensures { result ≡ no_session }
    {
        Session {
            owed: Owed::Nothing,
            watcher: 0,
            go: Go::none(),
        }
    }

    // With another owed answer.
    pub fn with_owed(mut self, owed: Owed) -> Session
        ensures { result ≡ with_owed owed self }
    {
        self.owed = owed;
        self
    }

    // With another watcher.
    pub fn with_watcher(mut self, watcher: u8) -> Session
        ensures { result ≡ with_watcher watcher self }
    {
        self.watcher = watcher;
        self
    }

    // With another Go.
    pub fn with_go(mut self, go: Go) -> Session
        ensures { result ≡ with_go go self }
    {
        self.go = go;
        self
    }

    // Whether no Go waits, or the host of the packets debugs the process and under a hundred ticks are counted.
    #[tactic(auto, unfolding(crate::specs::Session::go_sound))]
    fn go_sound(self, host: u8) -> bool
        ensures { result ≡ go_sound host self }
    {
        !self.go.waits || (host == PUP_HOST && self.go.ticks <= 99)
    }

    // Whether nothing is owed, or the host of the text lines debugs the process.
    #[tactic(auto, unfolding(crate::specs::Session::owed_sound))]
    fn owed_sound(self, host: u8) -> bool
        ensures { result ≡ owed_sound host self }
    {
        !self.owed.owes() || host == TEXT_HOST
    }

    // Whether nobody watches, or another host than the one that debugs the process.
    #[tactic(auto, unfolding(crate::specs::Session::watcher_sound))]
    fn watcher_sound(self, host: u8) -> bool
        ensures { result ≡ watcher_sound host self }
    {
        self.watcher == 0 || (host != 0 && self.watcher != host)
    }

    // Whether a process that this host debugs may have it.
    #[tactic(auto, unfolding(crate::specs::Session::session_sound))]
    pub fn sound(self, host: u8) -> bool
        ensures { result ≡ session_sound host self }
    {
        self.owed_sound(host) && self.watcher_sound(host) && self.go_sound(host)
    }
}
