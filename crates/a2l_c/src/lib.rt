//! The functions of `include/a2l.h`, for programs in C and in languages that call C.
//!
//! A call from C isn't checked against a contract: what a caller owes is in the header, and beside
//! each `requires`.
#![tactic(auto)]

mod calls;
mod handle;
mod lookup;
mod parts;
mod question;
mod session;
mod status;
mod structs;
