// What is proved of the library. This function does nothing: its contract is a theorem, so that the check of this crate includes it.
ghost use Rattle.c_api.specs.Library.{LibraryDemands};

// Calls of the exported functions on the bytes of a state, one after another with stores by the machine between them, are a run of the
// rules, from a fresh start of the library's own that returned 0: the rights and demand 3 hold of them. A report whose words have not 18 bytes is refused
// with 1 and stands in no list.
pub fn library_demands()
    ensures { LibraryDemands }
{}
