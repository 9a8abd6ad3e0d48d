// Definitions and laws on lists, bytes and words that know nothing of the protocol. There is no code here: the other
// crates' contracts cite specs/, and their proofs cite proofs/.
#![tactic(auto)]
