//! Answering what is asked for.

ghost use Rattle.std.specs.Prelude.{◌≡◌, ◌≢◌, ◌<◌, ◌≤◌, List, [], map, Err, OnErr, IfOk, IsErrOf};
ghost use Rattle.std.specs.List.{list_any};
ghost use Rattle.a2l_lines.specs.Input.{input_shown};
ghost use Rattle.a2l_lines.specs.Text.{is_bad, some_fault};
ghost use Rattle.a2l_lines.specs.Symbolize.{AreAsked, Answers, AnswersBeginning, status_for};

use crate::blocks::write_picked;
use crate::fault::RunFault;
use crate::input::{Input, inputs_of_lines, inputs_of_words};
use crate::input_bytes::read_all;
use crate::options::Options;
use crate::reply::Reply;
use crate::report::report_of;
use crate::resources::Resources;
use crate::streams::{Failed, Sink, Source};
use dw_symbols::Image;
use std::alloc::Global;
use std::sync::Wait;
use std::thread::Threads;
use ticket_board::Gate;

/// How many bytes are written at a time, or fewer, where the next piece doesn't fit.
const BLOCK: usize = 65536;

/// How a run ends whose text was written.
#[derive(Clone, Copy, Debug, PartialEq, Eq)]
pub enum Status {
    /// No input is a bad address, and none has a fault for an answer.
    Clean,
    /// Some input is a bad address, or has a fault for an answer.
    Faults,
}

/// What is asked for: the words, or where there are none the lines of the reader, which isn't read
/// otherwise.
fn inputs_of<R: Source>(
    alloc: Global,
    reader: &mut R,
    words: &[&str],
) -> Result<Vec<Input>, RunFault>
    ensures asked { IfOk result (λ inputs. AreAsked words.now (R.left reader.old) inputs.items) }
    ensures words { words.now ≢ [] → reader.new ≡ reader.old }
    ensures read { IsErrOf result RunFault.Read → R.failures reader.old < R.failures reader.new }
    ensures write { result ≢ Err RunFault.Write }
{
    if !words.is_empty() {
        let inputs = inputs_of_words(alloc, words)?;
        return Ok(inputs);
    }
    let bytes = read_all(alloc, reader)?;
    let inputs = inputs_of_lines(alloc, &bytes)?;
    Ok(inputs)
}

/// Whether some input is a bad address.
fn some_bad(inputs: &[Input]) -> bool
    ensures { result ≡ list_any is_bad (map input_shown inputs.now) }
{
    for input in inputs {
        if let Input::Bad = input {
            return true;
        }
    }
    false
}

/// Whether some answer is a fault.
fn some_refused(replies: &[Reply]) -> bool
    ensures { result ≡ list_any (λ reply. reply.is_fault) replies.now }
{
    for reply in replies {
        if reply.is_fault {
            return true;
        }
    }
    false
}

/// How a run over these inputs ends, where these are the replies to those that aren't bad
/// addresses.
fn outcome(inputs: &[Input], replies: &[Reply]) -> Status
    ensures { result ≡ status_for (some_fault (map input_shown inputs.now) replies.now) }
{
    if some_bad(inputs) || some_refused(replies) {
        return Status::Faults;
    }
    Status::Clean
}

/// Answers the addresses and spans that the words of the options name, or where there are none the
/// lines of the reader, and writes the lines of their answers in that order. The gate is entered
/// for each query that a worker took.
///
/// The errors: `Read`, after which nothing was written; `Write`; `Memory`. After each a beginning
/// of the text was written. The reader is read only where there are no words.
pub fn symbolize<T: Threads + Wait + Sync, R: Source, W: Sink, G: Gate + Sync>(
    on: &Resources<'_, T>,
    reader: &mut R,
    writer: &mut W,
    image: &Image<'_>,
    options: &Options<'_>,
    gate: &G,
) -> Result<Status, RunFault>
    requires workers { (1 ≤ options.now.workers) × (options.now.workers ≤ 64) }
    requires senders { (1 ≤ options.now.senders) × (options.now.senders ≤ 64) }
    ensures written { IfOk result
        (Answers options.now image.now (R.left reader.old) (W.told writer.old) (W.told writer.new)) }
    ensures beginning { OnErr result
        (AnswersBeginning options.now image.now (R.left reader.old) (W.told writer.old) (W.told writer.new)) }
    ensures read { IsErrOf result RunFault.Read → R.failures reader.old < R.failures reader.new }
    ensures nothing { IsErrOf result RunFault.Read → writer.new ≡ writer.old }
    ensures write { IsErrOf result RunFault.Write → W.failures writer.old < W.failures writer.new }
    ensures memory { IsErrOf result RunFault.Memory → writer.new ≡ writer.old }
    ensures words { options.now.words.items ≢ [] → reader.new ≡ reader.old }
{
    let inputs = inputs_of(on.alloc, reader, &options.words)?;
    let report = report_of(on, image, options, &inputs, gate)?;
    let status = outcome(&inputs, &report.replies);
    let mut block = Vec::with_capacity(on.alloc, BLOCK)?;
    match write_picked(writer, &mut block, &report.replies, &report.picks) {
        Ok(()) => Ok(status),
        Err(Failed) => Err(RunFault::Write),
    }
}
