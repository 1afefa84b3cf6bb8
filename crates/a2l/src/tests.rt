//! Whole runs of the program over files and streams in memory.

mod command;
mod fakes;
mod frames;
mod input;
mod listing;
mod samples;
mod spans;

ghost use Rattle.std.specs.Prelude.{◌≡◌, ◌<◌};

use crate::run::run;
use a2l_lines::Resources;
use dw_bytes::Steps;
use fakes::{Kept, Lines, OneFile};
use std::alloc::Global;
use std::marker::Brand;
use std::process::Abort;
use std::sync::Wait;
use std::sync::ledger::{Blank, Ledger};
use std::test::Fail;
use std::thread::Threads;

/// How a run ended, and what it wrote.
#[derive(Drop)]
struct Outcome {
    status: u8,
    output: Vec<u8>,
    errors: Vec<u8>,
}

/// What a run is given.
#[derive(Clone, Copy)]
struct Setting<'a> {
    file: Option<&'a [u8]>,
    input: &'a [u8],
    /// How many bytes a read gives at most, and the read that fails, counted from 0.
    read_most: usize,
    read_fails_at: u64,
    /// How many bytes a write takes at most, and the write from which on they fail, counted from 0.
    write_most: usize,
    write_fails_at: u64,
}

impl Setting<'static> {
    /// No file, no input, and streams that take and give all at once.
    const NOTHING: Self = Setting {
        file: None,
        input: &[],
        read_most: usize::MAX,
        read_fails_at: u64::MAX,
        write_most: usize::MAX,
        write_fails_at: u64::MAX,
    };
}

fn run_counted<T: Threads + Wait + Sync, I: Ledger, O: Ledger, E: Ledger>(
    on: &Resources<'_, T>,
    setting: Setting<'_>,
    words: &[&str],
    input: Blank,
    output: Blank,
    errors: Blank,
) -> Outcome
    requires input { (input.name ≡ I.name) × (input.parts ≡ I.parts) × (0 < I.parts) }
    requires output { (output.name ≡ O.name) × (output.parts ≡ O.parts) × (0 < O.parts) }
    requires errors { (errors.name ≡ E.name) × (errors.parts ≡ E.parts) × (0 < E.parts) }
{
    let alloc = on.alloc;
    let mut loader = OneFile(setting.file, alloc);
    let mut reader: Lines<'_, I> = Lines {
        left: setting.input,
        most: setting.read_most,
        fails_at: setting.read_fails_at,
        calls: 0,
        failures: Steps::new(input),
    };
    let mut writer: Kept<O> = Kept {
        bytes: Vec::new(alloc),
        most: setting.write_most,
        fails_at: setting.write_fails_at,
        calls: 0,
        failures: Steps::new(output),
    };
    let mut told: Kept<E> = Kept {
        bytes: Vec::new(alloc),
        most: usize::MAX,
        fails_at: u64::MAX,
        calls: 0,
        failures: Steps::new(errors),
    };
    let status = run(on, words, &mut loader, &mut reader, &mut writer, &mut told);
    let Kept { bytes: output, .. } = writer;
    let Kept { bytes: errors, .. } = told;
    Outcome {
        status,
        output,
        errors,
    }
}

fn run_in<T: Threads + Wait + Sync>(
    rt: &T,
    alloc: Global,
    setting: Setting<'_>,
    words: &[&str],
) -> Outcome {
    let on = Resources {
        threads: rt,
        alloc,
        processors: 4,
    };
    run_counted::<T, Brand, Brand, Brand>(
        &on,
        setting,
        words,
        Blank::new(1),
        Blank::new(1),
        Blank::new(1),
    )
}

/// A run over a file, without input.
fn run_on<T: Threads + Wait + Sync>(rt: &T, alloc: Global, file: &[u8], words: &[&str]) -> Outcome {
    run_over(rt, alloc, file, b"", words)
}

/// A run over a file and an input.
fn run_over<T: Threads + Wait + Sync>(
    rt: &T,
    alloc: Global,
    file: &[u8],
    input: &[u8],
    words: &[&str],
) -> Outcome {
    let setting = Setting {
        file: Some(file),
        input,
        ..Setting::NOTHING
    };
    run_in(rt, alloc, setting, words)
}

const USAGE_LINE: &str =
    "usage: a2l -e FILE [-f] [-i] [-a] [--workers N] [--senders N] [--units] [ADDRESS..]\n";

fn expect(rt: &impl Abort, outcome: &Outcome, status: u8, output: &str, errors: &str) {
    assert_eq!(rt;
        outcome.output.as_slice(),
        output.as_bytes(),
        "output, for {output:?}"
    );
    assert_eq!(rt;
        outcome.errors.as_slice(),
        errors.as_bytes(),
        "errors, for {errors:?}"
    );
    assert_eq!(rt;
        outcome.status,
        status,
        "status, for {output:?} and {errors:?}"
    );
}

/// A file with bytes put in at an offset.
fn poked(alloc: Global, hex: &str, at: usize, new: &[u8]) -> Result<Vec<u8>, Fail> {
    let mut bytes = hex::decode(alloc, hex)?;
    for (i, byte) in new.iter().enumerate() {
        let place = bytes
            .get_mut(at.saturating_add(i))
            .ok_or("a place in the file")?;
        *place = *byte;
    }
    Ok(bytes)
}
