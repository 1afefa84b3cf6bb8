//! Ranges of addresses, and an index of the least owner of each address.
#![tactic(auto)]

mod index;
mod laws;
mod merge;
mod range;
mod run;
mod search;
mod segment;

pub use index::{Found, Index};
pub use laws::law_of_least_owner;
pub use range::Range;
