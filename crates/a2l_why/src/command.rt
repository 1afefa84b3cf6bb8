//! The command line.

use crate::fault::Fault;
use clap::{Arg, ArgAction, ArgMatches, Command};
use std::alloc::{AllocError, Global};
use std::convert::AsStr;

/// The line that says how the program is called.
pub const USAGE: &str = "usage: a2l_why -e FILE [--json] [ADDRESS..]\n";

/// What the program is to do.
#[derive(Debug, Drop)]
pub struct Job<'a> {
    /// The path of the file.
    pub file: &'a str,
    /// `--json`: one document is written, and no page.
    pub json: bool,
    /// The addresses, as they were written. None: the file is looked at.
    pub words: Vec<&'a str>,
}

/// The command line, as `clap` reads it.
fn command<'a>(alloc: Global) -> Result<Command<'a>, AllocError> {
    Command::new(alloc, "a2l_why")
        .no_binary_name(true)
        .disable_help_flag(true)
        .disable_version_flag(true)
        .arg(
            Arg::new(alloc, "file")
                .action(ArgAction::Set)
                .short('e')
                .required(true),
        )?
        .arg(
            Arg::new(alloc, "json")
                .action(ArgAction::SetTrue)
                .long("json"),
        )?
        .arg(
            Arg::new(alloc, "words")
                .action(ArgAction::Append)
                .num_args(0..),
        )
}

/// What a command line asks for, whose words are without the program's own name. The error is
/// `CommandLine`, or `Memory`.
pub fn parse<'a, S: AsStr>(alloc: Global, words: &'a [S]) -> Result<Job<'a>, Fault> {
    let command = command(alloc)?;
    let matches = command.try_get_matches_from(words)?;
    let Some(file) = matches.get_str("file") else {
        return Err(Fault::CommandLine);
    };
    let json = matches.get_str("json") == Some("true");
    let words = Vec::from_slice(alloc, matches.get_strs("words").unwrap_or(&[]))?;
    Ok(Job { file, json, words })
}
