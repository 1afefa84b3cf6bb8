//! `a2l_why`: why an address of a program has no answer, or not the one that was expected.
#![tactic(auto)]

mod census;
mod command;
mod document;
mod fault;
mod findings;
mod meter;
mod notes;
mod page;
mod report;
mod told;
mod way;

use crate::command::{Job, USAGE, parse};
use crate::fault::Fault;
use crate::meter::Meter;
use crate::report::{Form, Outcome, Report, report_on_file, report_on_words};
use a2l_lines::{process_words, read_file};
use std::alloc::AllocError;
use std::io::{self, Lock, Write};
use std::process::ExitCode;

/// The report that a job asks for.
fn report_on(rt: &HostRuntime, job: &Job<'_>, file: &[u8]) -> Result<Report, AllocError> {
    let form = if job.json { Form::Document } else { Form::Page };
    if !job.words.is_empty() {
        return report_on_words(rt.alloc(), file, &job.words, form);
    }
    let mut meter = Meter::new(rt.stderr());
    let report = report_on_file(rt.alloc(), file, form, &mut meter);
    meter.clear();
    report
}

/// Writes a text whole.
fn write(rt: &HostRuntime, text: &[u8]) -> Result<(), Fault> {
    match io::writer(rt).write_all(text) {
        Ok(()) => Ok(()),
        Err(_) => Err(Fault::Write),
    }
}

/// Does what the command line asks for, and returns the status: 0 where there is nothing to report,
/// 1 where there are findings or an address isn't answered, 2 where the file is refused.
fn run(rt: &HostRuntime) -> Result<u8, Fault> {
    let Some(words) = process_words(rt)? else {
        return Err(Fault::CommandLine);
    };
    if words.is_empty() {
        write(rt, USAGE.as_bytes())?;
        return Ok(0);
    }
    let job = parse(rt.alloc(), words.as_slice())?;
    let file = read_file(rt, rt.alloc(), job.file)?;
    let report = report_on(rt, &job, &file)?;
    write(rt, &report.text)?;
    match report.outcome {
        Outcome::Clean => Ok(0),
        Outcome::Findings => Ok(1),
        Outcome::Refused(_) => Ok(2),
    }
}

fn main(rt: HostRuntime) -> ExitCode {
    match run(&rt) {
        Ok(status) => ExitCode::from(status),
        Err(fault) => {
            let (status, line) = fault.told();
            let _ = rt.stderr().lock().write_all(line.as_bytes());
            ExitCode::from(status)
        }
    }
}
