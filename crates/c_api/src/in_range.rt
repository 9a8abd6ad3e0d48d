// What is proved of numbers that their fields have room for. The function does nothing: its contract is a theorem, so that the check of this
// crate includes it.
ghost use Rattle.c_api.specs.InRange.{InRange};

// Wide numbers change nothing: where each has room in its field, the calls are the gateway's and the desk's own.
pub fn numbers_in_range()
    ensures { InRange }
{}
