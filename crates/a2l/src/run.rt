//! The whole program, over any files and streams.

ghost use Rattle.std.specs.Prelude.{◌≡◌, ◌≢◌, ◌<◌, ◌≤◌, [], IfOk, IfErr, map};
ghost use Rattle.std.specs.Io.KnownBytes.{append_known};
ghost use Rattle.a2l.specs.Ending.{IsFirst};
ghost use Rattle.a2l.specs.Fault.{usage_line, EndsBadly};
ghost use Rattle.a2l.specs.Serving.{Serves, number_of};
ghost use Rattle.a2l_lines.specs.declared.symbolizer.Status.TheVariants.{Clean};

use crate::answers::symbolize_file;
use crate::command::{USAGE, parse};
use crate::fault::{Fault, report};
use crate::listing::list_file;
use crate::load::Load;
use a2l_lines::{Failed, Resources, Sink, Source, Status, write_all};
use std::convert::AsStr;
use std::sync::Wait;
use std::thread::Threads;

/// Runs the program on the words of a command line, which are without its own name, and returns its
/// status: 0 where all is well, 1 where an input is a bad address or its unit can't be read, 2
/// where the command line or the file is refused, and 3 where reading or writing failed, or it was
/// out of memory. The first fault decides.
pub fn run<T: Threads + Wait + Sync, S: AsStr, L: Load, R: Source, W: Sink, E: Sink>(
    on: &Resources<'_, T>,
    words: &[S],
    loader: &mut L,
    reader: &mut R,
    writer: &mut W,
    errors: &mut E,
) -> u8
    ensures status { result ≤ 3 }
    ensures no_words { words.now ≡ [] → result ≡ 0 → W.told writer.new ≡ append_known (W.told writer.old) usage_line }
    ensures served { words.now ≢ [] → result ≤ 1 → Serves (L.known loader.old) (map S.text words.now)
        (R.left reader.old) (W.told writer.old) (W.told writer.new) result }
    ensures well { result ≤ 1 → errors.new ≡ errors.old }
    ensures badly { 1 < result → EndsBadly (IsFirst (L.known loader.old) (map S.text words.now)
        (R.failures reader.old < R.failures reader.new) (W.failures writer.old < W.failures writer.new)) result
        (E.told errors.old) (E.told errors.new) (E.failures errors.old) (E.failures errors.new) }
{
    match answer(on, words, loader, reader, writer) {
        Ok(Status::Clean) => 0,
        Ok(Status::Faults) => 1,
        Err(fault) => report(on.alloc, errors, fault),
    }
}

/// The same threads on no more processors than are free, but on one at least.
fn with_free<'t, T>(on: &Resources<'t, T>, free: Option<usize>) -> Resources<'t, T> {
    Resources {
        threads: on.threads,
        alloc: on.alloc,
        processors: on.processors.min(free.unwrap_or(usize::MAX)).max(1),
    }
}

/// Does what the command line asks for. The first fault decides. How many processors are free is
/// asked when the file is read: who starts the program, or writes its input, wants one until then.
fn answer<T: Threads + Wait + Sync, S: AsStr, L: Load, R: Source, W: Sink>(
    on: &Resources<'_, T>,
    words: &[S],
    loader: &mut L,
    reader: &mut R,
    writer: &mut W,
) -> Result<Status, Fault>
    ensures no_words { words.now ≡ [] → IfOk result (λ status. (status ≡ Clean)
        × (W.told writer.new ≡ append_known (W.told writer.old) usage_line)) }
    ensures served { words.now ≢ [] → IfOk result (λ status. Serves (L.known loader.old) (map S.text words.now)
        (R.left reader.old) (W.told writer.old) (W.told writer.new) (number_of status)) }
    ensures first { IfErr result (IsFirst (L.known loader.old) (map S.text words.now)
        (R.failures reader.old < R.failures reader.new) (W.failures writer.old < W.failures writer.new)) }
{
    if words.is_empty() {
        return match write_all(writer, USAGE.as_bytes()) {
            Ok(()) => Ok(Status::Clean),
            Err(Failed) => Err(Fault::Write),
        };
    }
    let job = parse(on.alloc, words)?;
    let file = loader.load(job.file)?;
    if !job.units {
        let on = with_free(on, loader.free_processors());
        return symbolize_file(&on, reader, writer, &file, &job.options);
    }
    list_file(on.alloc, writer, &file)?;
    Ok(Status::Clean)
}
