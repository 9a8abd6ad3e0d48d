// The rules of the gateway, and what is proved about them. The definitions are in specs/; of code there are only the functions whose
// contracts carry the theorems.
#![tactic(auto)]

pub mod theorems;
