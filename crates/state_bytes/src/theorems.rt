// What is proved of the byte form. These functions do nothing: each one's contract is a theorem, so that the check of this crate includes it.
ghost use Rattle.state_bytes.specs.Theorems.{Inverse, DoorKept};

// The byte form of a state and a door is read as them, and only their byte form is.
pub fn inverse()
    ensures { Inverse }
{}

// No record and no start that is put into the bytes of a state changes the door.
pub fn door_is_kept()
    ensures { DoorKept }
{}
