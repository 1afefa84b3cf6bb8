//! The segments of ranges that are in order of address, none over another: one after the other.

ghost use Rattle.std.specs.Prelude.{◌≡◌, ◌≤◌, ◌<◌, ◌++◌, List, [], ◌∷◌, ℕ, OnOk, IfOk, IfSome, map, None};
ghost use Rattle.dw_model.specs.Ranges as model;
ghost use Rattle.dw_index.specs.Range.{pair_shown};
ghost use Rattle.dw_index.specs.Segments.{AreIndexOf};
ghost use Rattle.dw_index.specs.Run.{IsRun, IsClosed};

use crate::range::Range;
use crate::segment::Segment;
use std::alloc::{AllocError, Global};

/// The segments of some ranges in order of address, but for the gap after the last one.
#[derive(Drop)]
struct Run {
    segments: Vec<Segment>,
    /// Where the last range ends.
    end: u64,
    /// The owner of the last range, while the gap after it is missing.
    owner: Option<usize>,
}

/// Adds the gap after the last range.
fn close(run: &mut Run) -> Result<(), AllocError>
    ensures owner { OnOk result (run.new.owner ≡ None) }
    ensures closed { OnOk result ((pairs : List (model.Range × ℕ))
        → IsRun pairs run.old.segments.items run.old.end run.old.owner
        → IsClosed pairs run.new.segments.items run.old.end) }
{
    let Some(_) = run.owner else {
        return Ok(());
    };
    run.segments.push(Segment {
        begin: run.end,
        owner: None,
    })?;
    run.owner = None;
    Ok(())
}

/// Extends the run to where the next range begins, with a gap where that is after the last one's
/// end.
fn reach(run: &mut Run, at: u64) -> Result<(), AllocError>
    ensures end { OnOk result (run.old.end ≤ at → run.new.end ≡ at) }
    ensures reached { OnOk result ((pairs : List (model.Range × ℕ))
        → IsRun pairs run.old.segments.items run.old.end run.old.owner → run.old.end ≤ at
        → IsRun pairs run.new.segments.items at run.new.owner) }
{
    if run.end >= at {
        return Ok(());
    }
    close(run)?;
    run.end = at;
    Ok(())
}

/// Adds a range that begins where the run ends. Two of one owner that touch make one segment.
fn extend(run: &mut Run, range: Range, owner: usize) -> Result<(), AllocError>
    ensures end { OnOk result (run.new.end ≡ range.end) }
    ensures extended { OnOk result ((pairs : List (model.Range × ℕ))
        → IsRun pairs run.old.segments.items run.old.end run.old.owner → run.old.end ≡ range.begin
        → range.begin < range.end → IsRun
        (pairs ++ pair_shown (range, owner) ∷ []) run.new.segments.items run.new.end run.new.owner) }
{
    if run.owner == Some(owner) {
        run.end = range.end;
        return Ok(());
    }
    run.segments.push(Segment {
        begin: range.begin,
        owner: Some(owner),
    })?;
    run.owner = Some(owner);
    run.end = range.end;
    Ok(())
}

/// Whether ranges are in order of address, none is empty and none begins below the end of the one
/// before it.
fn is_in_order(pairs: &[(Range, usize)]) -> bool {
    let mut end = 0;
    for (range, _) in pairs {
        if range.begin < end || range.begin >= range.end {
            return false;
        }
        end = range.end;
    }
    true
}

/// The segments of ranges that are in order of address, none empty and none over another; else
/// `None`. The order is looked at before memory is taken, and again range by range, where the
/// segments rest on it.
pub(crate) fn run_of(
    alloc: Global,
    pairs: &[(Range, usize)],
) -> Result<Option<Vec<Segment>>, AllocError>
    ensures { IfOk result (λ found. IfSome found (λ segments. AreIndexOf (map pair_shown pairs.now) segments.items)) }
{
    if !is_in_order(pairs) {
        return Ok(None);
    }
    let mut run = Run {
        segments: Vec::with_capacity(alloc, pairs.len().saturating_mul(2))?,
        end: 0,
        owner: None,
    };
    for (range, owner) in pairs {
        if range.begin < run.end || range.begin >= range.end {
            return Ok(None);
        }
        reach(&mut run, range.begin)?;
        extend(&mut run, *range, *owner)?;
    }
    close(&mut run)?;
    Ok(Some(run.segments))
}
