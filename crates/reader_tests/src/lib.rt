//! Tests of the crates that read a file, from its bytes to the functions of its units, through
//! their public calls alone. They are here so that those crates are proved once, and not once more
//! with their tests.
//!
//! Each test is proved, too. To keep that short, tables of rows are statics, since a constant is
//! built anew where it is used; a call whose contract is long stands in a function without clauses,
//! whose callers see nothing of it; and `expect` stands for `assert_eq!`.
#![tactic(auto)]

#[cfg(test)]
mod expect;
#[cfg(test)]
mod forms;
#[cfg(test)]
mod growth;
#[cfg(test)]
mod lines;
#[cfg(test)]
mod owners;
#[cfg(test)]
mod ranges;
#[cfg(test)]
mod shared_lists;
#[cfg(test)]
mod trees;
#[cfg(test)]
mod units;
