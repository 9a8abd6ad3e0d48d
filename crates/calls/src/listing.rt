// The processes that a start lists, each a digit after a single blank, and a colon and a size after it, or none; and after them the process
// of the Pup door.
ghost use Rattle.std.specs.Prelude.{◌≡◌, true, ◌+◌, ◌-◌, ◌*◌, ◌<◌};
ghost use Rattle.calls.specs.Listing.{is_digit, goes_on, at, named, sized, size_of, doored, only, empty, next_in, next_listing, listed, complete};

use process::MEMORY_BYTES;
use std::marker::Model;

// No size is greater, whether a process may have it or not.
const MOST_SIZE: u16 = 65535;
// No process of the Pup door is greater, and this one is none.
pub const NO_DOOR: u8 = 255;

// Where in the line the reading stands.
#[derive(Clone, Copy)]
pub enum Place {
    // After the word: a blank may follow.
    Behind,
    // After a blank: a process or the word `pup` has to follow.
    Before,
    // After a process: a colon or a blank may follow.
    Named,
    // After a colon: a size has to follow.
    Colon,
    // After a digit of a size: another or a blank may follow.
    Sized,
    // After the first letter of the word `pup`: the others have to follow.
    P,
    // After the second letter of the word `pup`: the third has to follow.
    Pu,
    // After the word `pup`: a blank has to follow.
    Pup,
    // After the word `pup` and its blank: the process of the Pup door has to follow.
    AtDoor,
    // After a digit of the process of the Pup door: another may follow, and nothing else.
    Door,
    // The line is no start.
    Wrong,
}

impl Place {
    // Whether the line may end here.
    #[tactic(auto, unfolding(crate::specs::Listing::complete))]
    pub fn is_complete(self) -> bool
        ensures { result ≡ complete self }
    {
        matches!(
            self,
            Place::Behind | Place::Named | Place::Sized | Place::Door
        )
    }
}

// The number of a process, below 8: so no function here has to ask for that.
#[derive(Clone, Copy)]
pub struct ProcessNumber {
    number: usize,
}

impl Model for ProcessNumber {
    ghost use Rattle.std.specs.Prelude.{ℕ, ◌<◌};

    ghost Value = { ℕ };

    ghost view = { λ n. n.number };

    ghost invariant = { λ n. n.number < 8 };

    ghost inverse = { λ n. record { number = n } };
}

impl ProcessNumber {
    // The process with this number.
    fn new(number: usize) -> ProcessNumber
        requires { number < 8 }
        ensures { result ≡ number }
    {
        ProcessNumber { number }
    }

    // Its number.
    fn number(self) -> usize
        ensures value { result ≡ self }
        ensures process_bound { result < 8 }
    {
        self.number
    }
}

// Where the reading after the word stands, which process was named last, which were listed, the size of each, and the process of the Pup door.
#[derive(Clone, Copy)]
pub struct Listing {
    pub place: Place,
    pub process: ProcessNumber,
    pub there: [bool; 8],
    pub sizes: [u16; 8],
    pub door: u8,
}

// Whether a character is a digit, and not after this last one.
#[tactic(auto, unfolding(crate::specs::Listing::is_digit))]
fn is_digit(last: u8, c: u8) -> bool
    ensures { result ≡ is_digit last c }
{
    b'0' <= c && c <= last
}

// Whether a number of at most so much goes on with this digit.
#[tactic(auto, unfolding(crate::specs::Listing::goes_on, crate::specs::Listing::is_digit))]
fn goes_on(most: u16, n: u16, c: u8) -> bool
    ensures { result ≡ goes_on most n c }
{
    n != 0 && is_digit(b'9', c) && 10 * (n as usize) + ((c - b'0') as usize) <= most as usize
}

impl Listing {
    // A line of which nothing was read after its word.
    pub fn new() -> Listing
        ensures { result ≡ empty }
    {
        Listing {
            place: Place::Behind,
            process: ProcessNumber::new(0),
            there: [false; 8],
            sizes: [MEMORY_BYTES as u16; 8],
            door: NO_DOOR,
        }
    }

    // The reading at another place.
    fn at(self, place: Place) -> Listing
        ensures { result ≡ at place self }
    {
        Listing { place, ..self }
    }

    // A process is named.
    fn named(mut self, p: usize) -> Listing
        requires { p < 8 }
        ensures { result ≡ named p self }
    {
        self.place = Place::Named;
        self.process = ProcessNumber::new(p);
        self.there[p] = true;
        self.sizes[p] = MEMORY_BYTES as u16;
        self
    }

    // This is the size so far of the process that was named last.
    fn sized(mut self, size: u16) -> Listing
        ensures { result ≡ sized size self }
    {
        self.place = Place::Sized;
        self.sizes[self.process.number()] = size;
        self
    }

    // This is the process of the Pup door so far.
    fn doored(self, door: u8) -> Listing
        ensures { result ≡ doored door self }
    {
        Listing {
            place: Place::Door,
            door,
            ..self
        }
    }

    // This one character may follow, and nothing else.
    #[tactic(auto, unfolding(crate::specs::Listing::only))]
    fn only(self, mark: u8, place: Place, c: u8) -> Listing
        ensures { result ≡ only mark place c self }
    {
        if c == mark {
            return self.at(place);
        }
        self.at(Place::Wrong)
    }

    // After a blank.
    #[tactic(auto, unfolding(crate::specs::Listing::next_in, crate::specs::Listing::is_digit))]
    fn after_blank(self, c: u8) -> Listing
        ensures { result ≡ next_in Place.Before c self }
    {
        if is_digit(b'7', c) {
            return self.named((c - b'0') as usize);
        }
        self.only(b'p', Place::P, c)
    }

    // After a process.
    #[tactic(auto, unfolding(crate::specs::Listing::next_in))]
    fn after_process(self, c: u8) -> Listing
        ensures { result ≡ next_in Place.Named c self }
    {
        if c == b':' {
            return self.at(Place::Colon);
        }
        self.only(b' ', Place::Before, c)
    }

    // After a colon.
    #[tactic(auto, unfolding(crate::specs::Listing::next_in, crate::specs::Listing::is_digit))]
    fn after_colon(self, c: u8) -> Listing
        ensures { result ≡ next_in Place.Colon c self }
    {
        if is_digit(b'9', c) {
            return self.sized((c - b'0') as u16);
        }
        self.at(Place::Wrong)
    }

    // After a digit of a size.
    fn after_digit(self, c: u8) -> Listing
        ensures { result ≡ next_in Place.Sized c self }
    {
        let size = self.sizes[self.process.number()];
        if goes_on(MOST_SIZE, size, c) {
            return self.sized(10 * size + ((c - b'0') as u16));
        }
        self.only(b' ', Place::Before, c)
    }

    // After the word `pup` and its blank.
    #[tactic(auto, unfolding(crate::specs::Listing::next_in, crate::specs::Listing::is_digit))]
    fn after_pup(self, c: u8) -> Listing
        ensures { result ≡ next_in Place.AtDoor c self }
    {
        if is_digit(b'9', c) {
            return self.doored(c - b'0');
        }
        self.at(Place::Wrong)
    }

    // After a digit of the process of the Pup door.
    fn after_door(self, c: u8) -> Listing
        ensures { result ≡ next_in Place.Door c self }
    {
        if goes_on(NO_DOOR as u16, self.door as u16, c) {
            return self.doored(10 * self.door + (c - b'0'));
        }
        self.at(Place::Wrong)
    }

    // One character more.
    #[tactic(auto, unfolding(crate::specs::Listing::next_in))]
    fn push(self, c: u8) -> Listing
        ensures { result ≡ next_listing self c }
    {
        match self.place {
            Place::Behind => self.only(b' ', Place::Before, c),
            Place::Before => self.after_blank(c),
            Place::Named => self.after_process(c),
            Place::Colon => self.after_colon(c),
            Place::Sized => self.after_digit(c),
            Place::P => self.only(b'u', Place::Pu, c),
            Place::Pu => self.only(b'p', Place::Pup, c),
            Place::Pup => self.only(b' ', Place::AtDoor, c),
            Place::AtDoor => self.after_pup(c),
            Place::Door => self.after_door(c),
            Place::Wrong => self,
        }
    }

    // A part of the line.
    pub fn part(self, text: &[u8]) -> Listing
        ensures { result ≡ listed self text.now }
    {
        let mut listing = self;
        for c in text {
            listing = listing.push(*c);
        }
        listing
    }
}
