// The gateway and the desk's end for firmware in C and other languages: the state is a lent buffer of 785 bytes, and a call returns the length
// granted or minus the number of the refusal; a report returns two lengths in one number.
#![tactic(auto)]

mod calls;
mod desk;
pub mod in_range;
mod narrow;
mod result;
pub mod theorems;
mod version;
