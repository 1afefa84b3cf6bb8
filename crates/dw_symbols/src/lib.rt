//! What an address of a file means: its frames.
#![tactic(auto)]

mod answer;
mod context;
mod early;
mod frames;
mod image;
mod image_unit;
mod location;
mod paths;
mod pieces;
mod refusals;
mod solver;
mod source;
mod span;
mod table_cache;
mod unit_answers;
mod unit_cache;
mod unit_parts;
mod unit_place;
mod unit_ranges;
mod unit_walk;

pub use answer::{Answer, Frame, Location, Piece, UnitFault};
pub use context::Context;
pub use image::Image;
pub use refusals::Refusals;
pub use solver::law_of_shown;
pub use unit_parts::{UnitLines, UnitTree, read_table, read_tree, table_offset};
pub use unit_place::UnitPlace;
