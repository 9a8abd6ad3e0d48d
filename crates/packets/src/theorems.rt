// What is proved of packets. These functions do nothing: their contracts are theorems, so that the check of this crate includes them.
ghost use Rattle.packets.specs.Theorems.{UnitsFit, BlocksFit, AcksFit, IdsFollow};

// Two words have no byte in common, and a process that holds a word holds both its bytes.
pub fn units_fit()
    ensures { UnitsFit }
{}

// A block that is sent holds the word asked for, and it is the longest that may be sent and fits.
pub fn blocks_fit()
    ensures { BlocksFit }
{}

// No acknowledgement has more than 35 words, and it has as many as it says.
pub fn acks_fit()
    ensures { AcksFit }
{}

// An ID is followed by another one, and by no other's.
pub fn ids_follow()
    ensures { IdsFollow }
{}
