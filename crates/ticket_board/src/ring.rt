//! The board over words that change in single steps, and that no call waits for.

mod asker;
mod board;
mod laws;
mod layout;
mod new_ring;
mod plays;
mod rule;
mod slots;
mod steps;
mod taker;

pub use asker::Asker;
pub use board::Ring;
pub use laws::{
    law_of_board, law_of_k1, law_of_k2, law_of_k3, law_of_k4, law_of_k5, law_of_k6, law_of_k7,
    law_of_k8, law_of_k9, law_of_k10, law_of_looks, law_of_opening, law_of_steps,
};
pub use taker::Taker;
