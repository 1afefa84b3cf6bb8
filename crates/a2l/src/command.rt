//! The command line.

ghost use Rattle.std.specs.Prelude.{◌≡◌, ◌≤◌, false, IfOk, IsErrOf, Some, [], codes, map, option_map, unwrap_or};
ghost use Rattle.std.specs.Option.{option_eq};
ghost use Rattle.std.specs.Str.{bytes_eq};
ghost use Rattle.clap.specs.Words.{app_of, first_value, found_of, matched_of, raw_values, rule_of};
ghost use Rattle.a2l_lines.specs.Input.{word_shown};
ghost use Rattle.a2l.specs.Command.{IsCount, AsksFor};
ghost use Rattle.a2l.specs.CommandLine as line;
ghost use Rattle.a2l.specs.CommandLine.{command_line};
ghost use Rattle.a2l.specs.Named.{IsNamed, NameJob};

use a2l_lines::Options;
use clap::error::ErrorKind;
use clap::{Arg, ArgAction, ArgMatches, Command};
use std::alloc::{AllocError, Global};
use std::convert::AsStr;
use thiserror::Error;

/// The line that says how the program is called.
pub const USAGE: &str =
    "usage: a2l -e FILE [-f] [-i] [-a] [--workers N] [--senders N] [--units] [ADDRESS..]\n";

/// Workers that answer, where the command line doesn't say.
const DEFAULT_WORKERS: u8 = 4;

/// Senders that ask, where the command line doesn't say.
const DEFAULT_SENDERS: u8 = 1;

/// The most workers, and the most senders.
const MOST_THREADS: u8 = 64;

/// What the program is to do.
#[derive(Debug, Drop)]
pub struct Job<'a> {
    /// The path of the file.
    pub file: &'a str,
    /// `--units`: the units are listed, and no address is read.
    pub units: bool,
    pub options: Options<'a>,
}

/// Why a command line is refused.
#[derive(Clone, Copy, Debug, PartialEq, Eq, Error)]
pub enum ParseFault {
    /// It isn't of the form that the usage line shows.
    #[error("the command line is refused")]
    Refused,
    #[error("out of memory")]
    Memory,
}

impl ParseFault {
    ghost use Rattle.std.specs.Prelude.{◌≡◌};
    ghost use Rattle.a2l.specs.Command.{number_of_parse};

    /// The number of the reason, 1 or 2.
    pub fn number(&self) -> u8
        ensures { result ≡ number_of_parse self.now }
    {
        match self {
            ParseFault::Refused => 1,
            ParseFault::Memory => 2,
        }
    }
}

impl From<AllocError> for ParseFault {
    ghost use Rattle.std.specs.Prelude.{◌≡◌};
    ghost use Rattle.a2l.specs.declared.command.ParseFault.TheVariants.{Memory};

    ghost from_gives = { λ _ fault. fault ≡ Memory };

    fn from(_error: AllocError) -> Self {
        ParseFault::Memory
    }
}

impl From<clap::Error> for ParseFault {
    ghost use Rattle.std.specs.Prelude.{◌≡◌, ◌≢◌};
    ghost use Rattle.clap.specs.Words.{kind_of};
    ghost use Rattle.clap.specs.declared.error.kind.ErrorKind.TheVariants.{OutOfMemory};
    ghost use Rattle.a2l.specs.declared.command.ParseFault.TheVariants.{Refused};

    ghost from_gives = { λ error fault. fault ≡ Refused → kind_of error ≢ OutOfMemory };

    fn from(error: clap::Error) -> Self {
        match error.kind() {
            ErrorKind::OutOfMemory => ParseFault::Memory,
            _ => ParseFault::Refused,
        }
    }
}

/// A word that is there or not.
fn flag(alloc: Global, id: &'static str) -> Arg<'static>
    ensures rule { rule_of result ≡ line.flag id.entry.now }
    ensures global { result.global ≡ false }
{
    Arg::new(alloc, id).action(ArgAction::SetTrue)
}

/// A word with a value after it.
fn option(alloc: Global, id: &'static str) -> Arg<'static>
    ensures rule { rule_of result ≡ line.option id.entry.now }
    ensures global { result.global ≡ false }
{
    Arg::new(alloc, id).action(ArgAction::Set)
}

/// The command line, as `clap` reads it.
fn command<'a>(alloc: Global) -> Result<Command<'a>, AllocError>
    ensures { IfOk result (λ command. app_of command ≡ command_line) }
{
    Command::new(alloc, "a2l")
        .no_binary_name(true)
        .disable_help_flag(true)
        .disable_version_flag(true)
        .arg(option(alloc, "file").short('e').required(true))?
        .arg(flag(alloc, "functions").short('f'))?
        .arg(flag(alloc, "inlines").short('i'))?
        .arg(flag(alloc, "addresses").short('a'))?
        .arg(option(alloc, "workers").long("workers"))?
        .arg(option(alloc, "senders").long("senders"))?
        .arg(flag(alloc, "units").long("units"))?
        .arg(
            Arg::new(alloc, "words")
                .action(ArgAction::Append)
                .num_args(0..),
        )
}

/// A flag is there.
fn is_set(matches: &ArgMatches<'_>, id: &str) -> bool
    ensures { result ≡ option_eq bytes_eq (first_value (found_of matches.now) id.now) (Some (codes "true")) }
{
    match matches.get_str(id) {
        None => false,
        Some(text) => text == "true",
    }
}

/// The words that are no option and no flag.
fn words_of<'a>(alloc: Global, matches: &ArgMatches<'a>) -> Result<Vec<&'a str>, AllocError>
    ensures { IfOk result (λ words. map word_shown words.items
        ≡ unwrap_or (option_map raw_values (matched_of (found_of matches.now) (codes "words"))) []) }
{
    let Some(words) = matches.get_strs("words") else {
        return Ok(Vec::new(alloc));
    };
    Vec::from_slice(alloc, words)
}

/// How many threads an option asks for.
fn count(matches: &ArgMatches<'_>, id: &str, default: u8) -> Result<u8, ParseFault>
    requires { IsCount default }
    ensures asked { AsksFor (first_value (found_of matches.now) id.now) default result }
    ensures bounds { IfOk result IsCount }
{
    let Some(text) = matches.get_str(id) else {
        return Ok(default);
    };
    match text.parse::<u8>() {
        Ok(count) if count >= 1 && count <= MOST_THREADS => Ok(count),
        _ => Err(ParseFault::Refused),
    }
}

/// What a command line asks for, whose words are without the program's own name.
pub fn parse<'a, S: AsStr>(alloc: Global, words: &'a [S]) -> Result<Job<'a>, ParseFault>
    ensures named { IfOk result (IsNamed (map S.text words.now)) }
    ensures refused { IsErrOf result ParseFault.Refused → ¬ (NameJob (map S.text words.now)) }
    ensures workers { IfOk result (λ job. IsCount job.options.workers) }
    ensures senders { IfOk result (λ job. IsCount job.options.senders) }
{
    let command = command(alloc)?;
    let matches = command.try_get_matches_from(words)?;
    let Some(file) = matches.get_str("file") else {
        return Err(ParseFault::Refused);
    };
    let workers = count(&matches, "workers", DEFAULT_WORKERS)?;
    let senders = count(&matches, "senders", DEFAULT_SENDERS)?;
    let words = words_of(alloc, &matches)?;
    let options = Options {
        functions: is_set(&matches, "functions"),
        inlines: is_set(&matches, "inlines"),
        addresses: is_set(&matches, "addresses"),
        workers,
        senders,
        words,
    };
    let units = is_set(&matches, "units");
    Ok(Job {
        file,
        units,
        options,
    })
}
