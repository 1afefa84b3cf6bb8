//! Reading bytes from the front: fixed and LEB128 numbers, pieces and texts.
#![tactic(auto)]

mod cursor;
mod leb;
mod steps;
mod width;

pub use cursor::Cursor;
pub use leb::Leb;
pub use steps::Steps;
pub use width::{Initial, Width};
