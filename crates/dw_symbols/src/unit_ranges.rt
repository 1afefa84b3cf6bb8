//! The ranges of all units that answer addresses.

ghost use Rattle.std.specs.Prelude.{◌≡◌, ◌≤◌, ◌+◌, ◌++◌, ℕ, true, None, Some, Ok, Err, map};
ghost use Rattle.std.specs.Prelude.{OnOk, IfOk, IfErr, IfSome, MatchOption};
ghost use Rattle.std.specs.Prelude.{option_to_list};
ghost use Rattle.dw_model.specs.Unit as model;
ghost use Rattle.dw_model.specs.Answers.{GivesUnlessMemory};
ghost use Rattle.dw_model.specs.Refusal.{ranges_refusal};
ghost use Rattle.dw_elf.specs.OpenFault.{refusal_of};
ghost use Rattle.dw_units.specs.OpenUnit.{sections_of, unit_of};
ghost use Rattle.dw_ranges.specs.Claims.{AddsListed, all_claims, size_of};
ghost use Rattle.dw_ranges.specs.ReadLists.{Has};
ghost use Rattle.dw_ranges.specs.Tails.{EndsAs, ReadsNew, tail_at};
ghost use Rattle.dw_index.specs.Range.{range_shown};
ghost use Rattle.dw_symbols.specs.Owners.{Holds, IsNamed, Owns, Refuses, checked_ranges, most_kept};

use dw_elf::OpenFault;
use dw_ranges::{
    Claims, ListIndexes, Listed, Range, RangeFault, RangeList, ReadLists, list_of, read_list,
    read_new, read_ranges,
};
use dw_units::{OpenUnit, Units};
use std::alloc::{AllocError, Global};

/// The group in which units claim ranges.
pub(crate) const UNITS: usize = 0;

/// Reads the ranges of a unit's first entry, where the unit answers addresses, in place of those
/// that were kept; none where it doesn't. The error names the unit.
fn read_answering(ranges: &mut Vec<Range>, unit: OpenUnit<'_, '_>) -> Result<(), OpenFault>
    ensures { GivesUnlessMemory (λ _. map range_shown ranges.new.items) refusal_of result
        (checked_ranges (sections_of unit.entry) (unit_of unit.entry)) }
{
    ranges.clear();
    let here = unit.unit();
    if !here.kind.answers() {
        return Ok(());
    }
    let Some(root) = &here.root else {
        return Ok(());
    };
    match read_ranges(ranges, &root.named_ranges(), here, unit.units().tables()) {
        Ok(()) => Ok(()),
        Err(RangeFault::Bad) => Err(OpenFault::RootRanges(here.offset)),
        Err(RangeFault::Memory) => Err(OpenFault::Memory),
    }
}

/// The list that a unit's first entry names, where the unit answers addresses; `None` where it has
/// one range at most, or they can't be read.
fn answering_list(unit: OpenUnit<'_, '_>) -> Option<RangeList>
    ensures { IsNamed (sections_of unit.entry) (unit_of unit.entry) result }
{
    let here = unit.unit();
    if !here.kind.answers() {
        return None;
    }
    let Some(root) = &here.root else {
        return None;
    };
    list_of(&root.named_ranges(), here, unit.units().tables())
}

/// The list is one that was read for an earlier unit.
fn was_read(read: &ReadLists, list: Option<RangeList>) -> bool
    ensures { result ≡ true → MatchOption list ⊥ (λ list. Has read.now (list, 0)) }
{
    let Some(list) = list else {
        return false;
    };
    read.has(list, 0)
}

/// Notes that the list of a unit was read, where it has one.
fn note(read: &mut ReadLists, list: Option<RangeList>) -> Result<(), AllocError>
    ensures { OnOk result ((known : _) → Has read.new known
        → Has (map (λ list. (list, 0)) (option_to_list list) ++ read.old) known) }
{
    let Some(list) = list else {
        return Ok(());
    };
    read.note(list, 0)
}

/// Reads the ranges of a unit's list, where it names one, as `read_answering` does, and returns how
/// many bytes the list takes.
fn read_unit(
    ranges: &mut Vec<Range>,
    unit: OpenUnit<'_, '_>,
    list: Option<RangeList>,
) -> Result<usize, OpenFault>
    requires { IsNamed (sections_of unit) (unit_of unit) list }
    ensures { GivesUnlessMemory (λ _. map range_shown ranges.new.items) refusal_of result
        (checked_ranges (sections_of unit.entry) (unit_of unit.entry)) }
{
    let Some(list) = list else {
        read_answering(ranges, unit)?;
        return Ok(0);
    };
    match read_list(ranges, list, unit.units().tables()) {
        Ok(size) => Ok(size),
        Err(RangeFault::Bad) => Err(OpenFault::RootRanges(unit.unit().offset)),
        Err(RangeFault::Memory) => Err(OpenFault::Memory),
    }
}

/// Reads the ranges of a unit's list up to where it goes on as one that was read for an earlier
/// unit, which owns the addresses from there on, and returns that one; `None` where it comes to its
/// end. Reads into `begins`, as offsets of .debug_rnglists, where lists begin that have ranges and
/// end as this one. The error names the unit.
fn read_front(
    ranges: &mut Vec<Range>,
    begins: &mut Vec<u64>,
    unit: OpenUnit<'_, '_>,
    list: RangeList,
    read: &ReadLists,
) -> Result<Option<RangeList>, OpenFault>
    requires { IsNamed (sections_of unit) (unit_of unit) (Some list) }
    ensures ranges { IfOk result (λ tail. ReadsNew (sections_of unit.entry).tables read.now (list, 0) (Ok tail)
        (map range_shown ranges.new.items)) }
    ensures begins { OnOk result ((begin : ℕ) → Has begins.new.items begin
        → EndsAs (sections_of unit.entry).tables list (tail_at list begin)) }
    ensures refused { IfErr result (λ fault. MatchOption (refusal_of fault) (Unit {0})
        (λ refusal. checked_ranges (sections_of unit.entry) (unit_of unit.entry) ≡ Err refusal)) }
{
    match read_new(ranges, begins, list, UNITS, unit.units().tables(), read) {
        Ok(tail) => Ok(tail),
        Err(RangeFault::Bad) => Err(OpenFault::RootRanges(unit.unit().offset)),
        Err(RangeFault::Memory) => Err(OpenFault::Memory),
    }
}

/// A list by its index, where it has one and can be read.
fn indexed<'a>(
    indexes: &ListIndexes<'a>,
    list: Option<RangeList>,
) -> Result<Option<Listed<'a>>, AllocError>
    ensures { IfOk result (λ found. IfSome found (Holds indexes.now list)) }
{
    let Some(list) = list else {
        return Ok(None);
    };
    let Some(index) = indexes.get(list)? else {
        return Ok(None);
    };
    match index.has_ranges(list.base) {
        Ok(_) => Ok(Some(Listed::Indexed(index, list.base))),
        Err(_) => Ok(None),
    }
}

/// Adds the ranges of a unit's list that were read, or holds the list where it was read to its end.
fn add<'a>(
    claims: &mut Claims<'a>,
    indexes: &mut ListIndexes<'a>,
    ranges: &[Range],
    list: RangeList,
    unit: usize,
    to_its_end: bool,
) -> Result<(), AllocError>
    ensures tables { indexes.new ≡ indexes.old }
    ensures few { size_of claims.new + claims.new.room ≤ size_of claims.old + claims.old.room + 1 }
    ensures claims { OnOk result
        (AddsListed indexes.old 0 (map range_shown ranges.now) unit (Some list) claims.old claims.new) }
{
    if to_its_end {
        return claims.hold(UNITS, indexes.make(list)?, unit);
    }
    claims.add(UNITS, ranges, unit, Some(list), indexes)
}

/// The list of a unit, where as many bytes of lists were read as .debug_rnglists has.
fn list_beyond(list: Option<RangeList>, left: usize) -> Option<RangeList>
    ensures { IfSome result (λ one. list ≡ Some one) }
{
    if left > 0 {
        return None;
    }
    list
}

/// What units that answer addresses claim by their places, but for those of which an earlier one
/// owns all addresses. So a list is read once, however many units name it and count from the same
/// bases. A list of which several units count from other bases has other ranges in each; so no more
/// ranges of lists are kept than the bytes of .debug_rnglists can spell, and the units behind these
/// are held by their lists. When as many bytes of lists were read as .debug_rnglists has, a list is
/// read up to where it goes on as one that was read before; one that is read to its end is held by
/// an index, and read no more, whatever the base. The error is `RootRanges`, of the first unit
/// whose ranges can't be read, or `Memory`.
pub(crate) fn unit_ranges<'a>(alloc: Global, units: &Units<'a>) -> Result<Claims<'a>, OpenFault>
    ensures owns { IfOk result (λ claims. Owns units.now (model.units units.now.info)
        (all_claims units.now.tables claims)) }
    ensures accepted { OnOk result (ranges_refusal units.now ≡ None) }
    ensures few { IfOk result (λ claims. size_of claims ≤ most_kept units.now) }
    ensures refused { IfErr result (λ fault. Refuses (refusal_of fault) units.now) }
{
    let tables = units.tables();
    let mut claims = Claims::new(alloc, tables.rnglists.len() / 3);
    let mut left = tables.rnglists.len();
    let mut read = ReadLists::new(alloc);
    let mut indexes = ListIndexes::new(alloc, tables);
    let mut ranges = Vec::new(alloc);
    let mut begins = Vec::new(alloc);
    for i in 0..units.len() {
        let unit = units.at(i);
        let list = answering_list(unit);
        if was_read(&read, list) {
            continue;
        }
        if let Some(held) = indexed(&indexes, list)? {
            claims.hold(UNITS, held, i)?;
            note(&mut read, list)?;
            continue;
        }
        if let Some(one) = list_beyond(list, left) {
            let tail = read_front(&mut ranges, &mut begins, unit, one, &read)?;
            add(&mut claims, &mut indexes, &ranges, one, i, tail.is_none())?;
            read.note(one, 0)?;
            read.note_tails(one, UNITS, &begins, tables.rnglists.len())?;
            continue;
        }
        let size = read_unit(&mut ranges, unit, list)?;
        claims.add(UNITS, &ranges, i, list, &mut indexes)?;
        left = left.saturating_sub(size);
        note(&mut read, list)?;
    }
    Ok(claims)
}
