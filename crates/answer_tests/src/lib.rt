//! Tests of the crates that answer addresses of a file, by contexts, boards and pools, up to the
//! lines of answers, through their public calls alone. They are here so that those crates are
//! proved once, and not once more with their tests.
//!
//! Each test is proved, too. To keep that short, tables of rows are statics, since a constant is
//! built anew where it is used; a call whose contract is long stands in a function without clauses,
//! whose callers see nothing of it; `expect` stands for `assert_eq!`; and what is dropped, as a
//! file, an image or a context, is owned by a function that only makes it and lends it to the next,
//! since each call and each `?` is long where much is dropped.
#![tactic(auto)]

#[cfg(test)]
mod answers;
#[cfg(test)]
mod boards;
#[cfg(test)]
mod contexts;
#[cfg(test)]
mod expect;
#[cfg(test)]
mod library;
#[cfg(test)]
mod pools;
#[cfg(test)]
mod shared_lists;
#[cfg(test)]
mod shared_tables;
#[cfg(test)]
mod spans;
#[cfg(test)]
mod texts;
