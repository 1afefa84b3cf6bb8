//! The board of a symbolizer's pool: many senders ask, many workers answer, each on a thread of its
//! own, and every sender receives the answers in the order of its queries, each once.
#![tactic(auto)]

mod board;
mod client;
mod fault;
mod gate;
mod new_board;
mod outcome;
mod pool;
pub mod ring;
mod worker;

pub use board::Board;
pub use client::{Client, law_of_end};
pub use fault::{AskFault, BoardFault};
pub use gate::Gate;
pub use new_board::open;
pub use outcome::{Next, Turn};
pub use pool::{Maker, PoolFault, Queries, pool_fits, run_pool};
pub use worker::Worker;
