//! The sections of an ELF64 file.
//!
//! Little-endian files of 64-bit objects are read, other than relocatable objects. Nothing is
//! copied, and no memory is taken.
#![tactic(auto)]

mod elf;
mod fault;
mod layout;
mod name;

pub use elf::Elf;
pub use fault::OpenFault;
pub use name::Name;
