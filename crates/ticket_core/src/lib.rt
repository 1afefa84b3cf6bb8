//! Queries in order, each answered once: what a symbolizer's pool may do, as a state machine
//! without threads.
//!
//! Senders ask and collect, workers take, finish and give back. Each call of `Core` is one event of
//! the state machine that `specs/` defines, and `law_of_runs` says what holds after every list of
//! events. No program runs a `Core`: the pool runs the board of `ticket_board`, which is proved
//! against these definitions.
#![tactic(auto)]

mod fault;
mod lane;
mod laws;
mod machine;
mod query;
mod shape;
mod solver;

pub use fault::{CoreFault, NewFault};
pub use laws::{law_of_refusals, law_of_runs};
pub use machine::Core;
pub use query::{Query, QueryKind};
pub use shape::Shape;
pub use solver::{NoMemory, Solver};
