// What is looked for among the entries of a process.
ghost use Rattle.std.specs.Prelude.{◌≡◌, ◌||◌};
ghost use Rattle.breakpoints.specs.declared.entry_query.EntryQuery.TheVariants.{Lifted};
ghost use Rattle.breakpoints.specs.EntryQuery.{matches};

use crate::entry::Breakpoint;

// An entry that is free, that is lifted, or that is a breakpoint at this address.
#[derive(Clone, Copy)]
pub enum EntryQuery {
    Free,
    Lifted,
    At(u16),
}

impl Breakpoint {
    #[tactic(auto, unfolding(crate::specs::EntryQuery::matches))]
    pub fn matches(self, query: EntryQuery) -> bool
        ensures { result ≡ matches query self }
    {
        match query {
            EntryQuery::Free => self.setter == 0,
            EntryQuery::Lifted => self.setter != 0 && self.lifted,
            EntryQuery::At(a) => self.setter != 0 && self.address == a,
        }
    }

    // Whether it is lifted, or another is.
    pub fn lifted_or(self, another: bool) -> bool
        ensures { result ≡ another || matches Lifted self }
    {
        another || self.matches(EntryQuery::Lifted)
    }
}
