//! Finding the used sequence of an address, and its checkpoints.

ghost use Rattle.std.specs.Prelude.{◌≡◌, ◌≤◌, ◌*◌, ℕ, length, map, IfOk};
ghost use Rattle.dw_index.specs.Range.{pair_shown};
ghost use Rattle.dw_index.specs.Segments.{owner_at};
ghost use Rattle.dw_line.specs.Sequences.{pairs_from, number_of, checkpoints_in};

use crate::checkpoints::{Checkpoint, Sequence};
use dw_index::{Index, Range};
use std::alloc::{AllocError, Global};

/// The number of the used sequence that holds some addresses, if one does, and where they end.
#[derive(Clone, Copy, Debug)]
pub(crate) struct Owner {
    pub(crate) number: Option<usize>,
    pub(crate) until: u64,
}

/// The ranges of sequences, each with the sequence's number.
fn sequence_pairs(alloc: Global, sequences: &[Sequence]) -> Result<Vec<(Range, usize)>, AllocError>
    ensures { IfOk result (λ pairs. map pair_shown pairs.items ≡ pairs_from 0 sequences.now) }
{
    let mut pairs = Vec::with_capacity(alloc, sequences.len())?;
    for number in 0..sequences.len() {
        let Sequence { begin, end, .. } = sequences[number];
        pairs.push((Range { begin, end }, number))?;
    }
    Ok(pairs)
}

/// An index of sequences, which finds the number of the first one that holds an address.
pub(crate) fn index_of(alloc: Global, sequences: &[Sequence]) -> Result<Index, AllocError>
    ensures owners { IfOk result (λ index. (a : ℕ) → owner_at index a ≡ number_of sequences.now a) }
    ensures size { IfOk result (λ index. length index ≤ 2 * length sequences.now) }
{
    let pairs = sequence_pairs(alloc, sequences)?;
    Index::build(alloc, &pairs)
}

/// The checkpoints of a sequence, among those of all sequences.
pub(crate) fn own_checkpoints(checkpoints: &[Checkpoint], sequence: Sequence) -> &[Checkpoint]
    requires ordered { sequence.first_checkpoint ≤ sequence.end_checkpoint }
    requires within { sequence.end_checkpoint ≤ length checkpoints.now }
    ensures { result.now ≡ checkpoints_in checkpoints.now sequence }
{
    let before_end = checkpoints.split_at(sequence.end_checkpoint).0;
    before_end.split_at(sequence.first_checkpoint).1
}
