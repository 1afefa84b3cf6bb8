//! What tests are made of: sample files and the parts of files, and numbers drawn at random.
#![tactic(auto)]

pub mod draws;
pub mod files;
