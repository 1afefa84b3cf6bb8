//! Line tables: the row of an address and the path of a file, by section 6.2 of DWARF 5.
#![tactic(auto)]

mod checkpoints;
mod entries;
mod entry_list;
mod fault;
mod header;
mod instruction;
mod leaps;
mod lines;
mod machine;
mod numbers;
mod path;
mod program;
mod registers;
mod rows;
mod search;
mod sequences;
mod walk;

pub use fault::LineFault;
pub use header::table_size;
pub use lines::Lines;
pub use rows::Row;
pub use walk::{Stretch, Walk};
