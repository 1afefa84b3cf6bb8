//! `a2l`: addresses of a program to function, file and line.
#![tactic(auto)]

mod answers;
mod command;
mod fault;
mod host;
mod listing;
mod load;
mod processors;
mod run;

use crate::host::run_on_host;
use std::process::ExitCode;

fn main(rt: HostRuntime) -> ExitCode {
    ExitCode::from(run_on_host(&rt, &rt))
}

#[cfg(test)]
mod tests;
