//! The functions of a unit: those at an address, inlined ones in those that they were inlined in,
//! their names and where they were called.
#![tactic(auto)]

mod chains;
mod descriptions;
mod drafts;
mod fault;
mod function;
mod name;
mod reader;
mod tree;
mod walk;

pub use fault::TreeFault;
pub use function::{Call, Described, EntryId};
pub use tree::Tree;
