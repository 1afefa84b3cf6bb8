//! Ranges that lie over others though no code is where they begin: those of what a linker dropped.

ghost use Rattle.std.specs.Prelude.{◌<◌};
ghost use Rattle.dw_model.specs.Steady.{last_address};

use crate::note::{Allocated, Fact, Note};
use crate::scene::{Scene, read_functions, tell_unit};
use dw_frames::EntryId;
use dw_index::Index;
use dw_model::dwarf::DW_TAG_subprogram;
use dw_ranges::{Range, RangeFault, read_ranges};
use dw_units::{EntryView, Next, OpenUnit};
use std::alloc::{AllocError, Global};

/// Addresses that are answered by an owner whose code isn't there, instead of by one whose code is.
/// An owner is a unit or a function, by its offset in .debug_info.
#[derive(Clone, Copy, Debug)]
pub struct Overlap {
    /// How many addresses there are.
    pub addresses: u64,
    /// In how many spans they lie.
    pub spans: u64,
    /// The first of these.
    pub first: Range,
    /// Who answers there, and who would.
    pub told: usize,
    pub hidden: usize,
}

/// A range and its owner.
pub type Owned = (Range, usize);

/// The next address above one at which an index has another answer.
fn next_border(all: &Index, live: &Index, at: u64) -> u64
    requires { at < last_address }
    ensures { at < result }
{
    let one = all.steady(at);
    let other = live.steady(at);
    if one <= other { one } else { other }
}

/// Both overlaps in one, with the first span and the owners of the first.
pub fn both(one: Option<Overlap>, other: Option<Overlap>) -> Option<Overlap> {
    let (Some(one), Some(other)) = (one, other) else {
        return one.or(other);
    };
    Some(Overlap {
        addresses: one.addresses.saturating_add(other.addresses),
        spans: one.spans.saturating_add(other.spans),
        ..one
    })
}

/// The overlap of a span with these owners, by all ranges and by those that begin where code is.
fn overlap_in(span: Range, told: Option<usize>, hidden: Option<usize>) -> Option<Overlap> {
    let (Some(told), Some(hidden)) = (told, hidden) else {
        return None;
    };
    if told == hidden {
        return None;
    }
    Some(Overlap {
        addresses: span.end.saturating_sub(span.begin),
        spans: 1,
        first: span,
        told,
        hidden,
    })
}

/// The addresses whose owner by all ranges isn't their owner by those that begin where code is.
fn compare(all: &Index, live: &Index) -> Option<Overlap> {
    let mut found: Option<Overlap> = None;
    let mut at = 0u64;
    while at < u64::MAX {
        let end = next_border(all, live, at);
        let span = Range { begin: at, end };
        found = both(found, overlap_in(span, all.find(at), live.find(at)));
        at = end;
    }
    found
}

/// The addresses at which a range that begins where no code is answers, instead of one that begins
/// at code. Each range has its owner, and the least owner answers.
pub fn overlap_of(scene: &Scene<'_>, pairs: &[Owned]) -> Allocated<Option<Overlap>> {
    let mut live = Vec::new(scene.alloc);
    for pair in pairs {
        if scene.headers.may_be_code(pair.0.begin) {
            live.push(*pair)?;
        }
    }
    if live.len() == pairs.len() {
        return Ok(None);
    }
    let all = Index::build(scene.alloc, pairs)?;
    let live = Index::build(scene.alloc, &live)?;
    Ok(compare(&all, &live))
}

/// Adds an owner: where it is, and its name.
pub fn tell_owner<'a>(note: &mut Note<'a>, scene: &Scene<'a>, owner: u64) -> Allocated<()> {
    let Some(here) = scene.units.find(owner) else {
        return Ok(());
    };
    if owner != here.unit().offset {
        note.place("function ", "function", owner)?;
        if let Some(Ok(tree)) = read_functions(scene, here.index())? {
            let (unit, offset) = (here.index(), owner);
            let id = EntryId { unit, offset };
            note.tell(" ", "function_name", Fact::text(tree.name(id)))?;
        }
        note.say(" of ")?;
    }
    tell_unit(note, here)
}

/// Adds the ranges of a subprogram; one whose ranges can't be read has none.
fn add<'a>(
    found: &mut Vec<Owned>,
    here: OpenUnit<'_, 'a>,
    entry: &EntryView<'_, 'a>,
    ranges: &mut Vec<Range>,
) -> Allocated<()> {
    let named = entry.named_ranges();
    match read_ranges(ranges, &named, here.unit(), here.units().tables()) {
        Ok(()) => {}
        Err(RangeFault::Bad) => return Ok(()),
        Err(RangeFault::Memory) => return Err(AllocError),
    }
    for range in ranges.as_slice() {
        found.push((*range, entry.offset() as usize))?;
    }
    Ok(())
}

/// The ranges of a unit's subprograms, by the offsets of their entries, as far as these are read.
pub fn subprograms_of(alloc: Global, here: OpenUnit<'_, '_>) -> Allocated<Vec<Owned>> {
    let mut found = Vec::new(alloc);
    let Some(mut entries) = here.entries(alloc) else {
        return Ok(found);
    };
    let mut ranges = Vec::new(alloc);
    let mut depth = 0usize;
    // Each entry has a byte at least.
    for _ in here.unit().offset..here.unit().end {
        if entries.is_done() {
            return Ok(found);
        }
        let Ok(next) = entries.next_function() else {
            return Ok(found);
        };
        let children = match next {
            Next::Null => {
                depth = depth.saturating_sub(1);
                false
            }
            Next::Passed { children } | Next::Unranged { children } => children,
            Next::Function => {
                let Some(entry) = entries.function() else {
                    return Ok(found);
                };
                if entry.tag() == DW_TAG_subprogram {
                    add(&mut found, here, &entry, &mut ranges)?;
                }
                entry.children()
            }
        };
        depth = depth.saturating_add(usize::from(children));
        if depth == 0 {
            return Ok(found);
        }
    }
    Ok(found)
}
