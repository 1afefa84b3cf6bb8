//! What a file says: the definitions that every contract above cites.
//!
//! There is no code here that reads. `specs/` has the definitions, one concept a file, and this
//! source the standard's named numbers, which specs and code cite alike.
#![tactic(auto)]

pub mod dwarf;
pub mod elf;
pub mod laws;
