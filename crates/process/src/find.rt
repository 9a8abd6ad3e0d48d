// One search over the entries of a process, for whatever is asked.
ghost use Rattle.std.specs.Prelude.{◌≡◌};
ghost use Rattle.process.specs.Find.{find, found_entry};

use crate::record::Process;
use breakpoints::EntryQuery;

impl Process {
    // The index of the first entry that matches, if there is one.
    pub fn find(self, query: EntryQuery) -> Option<usize>
        ensures { result ≡ found_entry (find query self) }
    {
        self.breaks.iter().position(|b| b.matches(query))
    }
}
