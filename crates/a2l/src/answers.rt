//! Answering what is asked of a file.

ghost use Rattle.std.specs.Prelude.{◌≡◌, ◌≢◌, ◌<◌, ◌≤◌, [], None, OnOk, OnErr, IfOk, IfErr, IsErrOf};
ghost use Rattle.dw_model.specs.Refusal.{refusal};
ghost use Rattle.a2l.specs.Fault.{FailsOver, IsRefused};
ghost use Rattle.a2l_lines.specs.Symbolize.{Answers, AnswersBeginning};

use crate::fault::Fault;
use a2l_lines::{Options, Resources, Sink, Source, Status, symbolize};
use dw_symbols::Image;
use std::sync::Wait;
use std::thread::Threads;
use ticket_board::Gate;
use ticket_core::Query;

/// A gate that is open.
struct Open;

impl Gate for Open {
    fn enter(&self, _sender: usize, _number: u64, _query: Query) {}
}

/// Answers the addresses and spans that are asked for of a file. After an error a beginning of the
/// text was written, after a read that failed or a refused file nothing; the reader is read only
/// where there are no words.
pub fn symbolize_file<T: Threads + Wait + Sync, R: Source, W: Sink>(
    on: &Resources<'_, T>,
    reader: &mut R,
    writer: &mut W,
    file: &[u8],
    options: &Options<'_>,
) -> Result<Status, Fault>
    requires workers { (1 ≤ options.now.workers) × (options.now.workers ≤ 64) }
    requires senders { (1 ≤ options.now.senders) × (options.now.senders ≤ 64) }
    ensures accepted { OnOk result (refusal file.now ≡ None) }
    ensures written { IfOk result
        (Answers options.now file.now (R.left reader.old) (W.told writer.old) (W.told writer.new)) }
    ensures beginning { OnErr result
        (AnswersBeginning options.now file.now (R.left reader.old) (W.told writer.old) (W.told writer.new)) }
    ensures nothing { IsErrOf result Fault.Read → writer.new ≡ writer.old }
    ensures words { options.now.words.items ≢ [] → reader.new ≡ reader.old }
    ensures fault { IfErr result (FailsOver (refusal file.now)
        (R.failures reader.old < R.failures reader.new) (W.failures writer.old < W.failures writer.new)) }
    ensures refused { IfErr result (λ fault. IsRefused fault → writer.new ≡ writer.old) }
{
    let image = Image::open(on.alloc, file)?;
    let status = symbolize(on, reader, writer, &image, options, &Open)?;
    Ok(status)
}
