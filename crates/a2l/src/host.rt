//! The program on its host: the command line, files, the standard streams and threads.

ghost use Rattle.std.specs.Prelude.{◌≡◌, ◌<◌, ◌≤◌, length, None, IfOk};

use crate::fault::{Fault, report};
use crate::load::Load;
use crate::processors::free_processors;
use crate::run::run;
use a2l_lines::{Failed, LoadFault, Resources, Sink, Source, process_words, read_file};
use dw_bytes::Steps;
use std::alloc::AllocError;
use std::io::{self, ErrorKind, Lock, Read, Write};
use std::marker::Brand;
use std::num::NonZeroUsize;
use std::rt::Files;
use std::sync::Wait;
use std::sync::ledger::{Blank, Ledger};
use std::thread;
use std::thread::Threads;

/// Files by their paths.
#[derive(Debug, Drop)]
pub struct Disk<'r, R> {
    pub rt: &'r R,
}

impl<R: Files + AllocGlobal> Load for Disk<'_, R> {
    ghost known = { λ _ _. None };

    fn load(&mut self, path: &str) -> Result<Vec<u8>, LoadFault> {
        read_file(self.rt, self.rt.alloc(), path)
    }

    fn free_processors(&self) -> Option<usize> {
        free_processors(self.rt)
    }
}

/// A stream, with how often it failed, which only contracts see.
#[derive(Drop)]
pub struct Stream<T, L: Ledger> {
    pub stream: T,
    pub failures: Steps<L>,
}

/// A write that goes on after signals.
fn written<T: Write>(stream: &mut T, piece: &[u8]) -> Result<usize, Failed>
    ensures { IfOk result (λ count. count ≤ length piece.now) }
{
    for _ in 0..u64::MAX {
        match stream.write(piece) {
            Ok(count) => return Ok(count),
            Err(error) if error.kind() == ErrorKind::Interrupted => {}
            Err(_) => return Err(Failed),
        }
    }
    Err(Failed)
}

/// A read that goes on after signals.
fn read<T: Read>(stream: &mut T, buffer: &mut [u8]) -> Result<usize, Failed>
    ensures { IfOk result (λ count. count ≤ length buffer.old) }
{
    for _ in 0..u64::MAX {
        match stream.read(buffer) {
            Ok(count) => return Ok(count),
            Err(error) if error.kind() == ErrorKind::Interrupted => {}
            Err(_) => return Err(Failed),
        }
    }
    Err(Failed)
}

impl<T: Write, L: Ledger> Sink for Stream<T, L> {
    ghost failures = { λ s. s.failures };

    ghost told = { λ _. None };

    fn write(&mut self, piece: &[u8]) -> Result<usize, Failed> {
        match written(&mut self.stream, piece) {
            Ok(0) if !piece.is_empty() => {
                self.failures.tick();
                Ok(0)
            }
            Ok(count) => Ok(count),
            Err(Failed) => {
                self.failures.tick();
                Err(Failed)
            }
        }
    }
}

impl<T: Read, L: Ledger> Source for Stream<T, L> {
    ghost failures = { λ s. s.failures };

    ghost left = { λ _. None };

    fn read(&mut self, buffer: &mut [u8]) -> Result<usize, Failed> {
        match read(&mut self.stream, buffer) {
            Ok(count) => Ok(count),
            Err(Failed) => {
                self.failures.tick();
                Err(Failed)
            }
        }
    }
}

/// Runs the program on the disk and the standard streams, each with a count of its failures.
fn served<T: Threads + Wait + Sync, I: Ledger, O: Ledger, E: Ledger>(
    rt: &HostRuntime,
    threads: &T,
    input: Blank,
    output: Blank,
    errors: Blank,
) -> u8
    requires input { (input.name ≡ I.name) × (input.parts ≡ I.parts) × (0 < I.parts) }
    requires output { (output.name ≡ O.name) × (output.parts ≡ O.parts) × (0 < O.parts) }
    requires errors { (errors.name ≡ E.name) × (errors.parts ≡ E.parts) × (0 < E.parts) }
{
    let mut errors: Stream<_, E> = Stream {
        stream: rt.stderr().lock(),
        failures: Steps::new(errors),
    };
    let mut writer: Stream<_, O> = Stream {
        stream: io::writer(rt),
        failures: Steps::new(output),
    };
    let mut reader: Stream<_, I> = Stream {
        stream: rt.stdin().lock(),
        failures: Steps::new(input),
    };
    let words = match process_words(rt) {
        Ok(Some(words)) => words,
        Ok(None) => return report(rt.alloc(), &mut errors, Fault::CommandLine),
        Err(AllocError) => return report(rt.alloc(), &mut errors, Fault::Memory),
    };
    let mut disk = Disk { rt };
    let on = Resources {
        threads,
        alloc: rt.alloc(),
        processors: thread::available_parallelism(threads).map_or(1, NonZeroUsize::get),
    };
    run(
        &on,
        words.as_slice(),
        &mut disk,
        &mut reader,
        &mut writer,
        &mut errors,
    )
}

/// Runs the program with the words, the streams and the files of the process, and returns its
/// status. The threads of the pool come from the same runtime.
pub fn run_on_host<T: Threads + Wait + Sync>(rt: &HostRuntime, threads: &T) -> u8 {
    served::<_, Brand, Brand, Brand>(rt, threads, Blank::new(1), Blank::new(1), Blank::new(1))
}
