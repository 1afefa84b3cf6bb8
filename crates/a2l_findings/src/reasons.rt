//! Why a file, or a unit of it, can't be read: the first field that can't be taken.
//!
//! The crates below say what they refuse. The header, the entry or the list that they name is read
//! here a second time, field by field, up to the one that they can't have taken.

mod entry;
mod fields;
mod file;
mod line;
mod ranges;
mod reason;
mod unit;

use crate::note::Allocated;
use crate::scene::Scene;
use dw_elf::{Elf, OpenFault};
use dw_forms::FormFault;
use dw_model::dwarf::{DW_TAG_inlined_subroutine, DW_TAG_subprogram};
use dw_ranges::{RangeFault, ranges_of};
use dw_symbols::{UnitFault, table_offset};
use dw_units::{Entry, OpenUnit, Sections, Units};
pub use entry::{push_attributes, uses_supplementary};
use entry::{abbrevs_reason, root_reason};
use line::line_reason;
pub use line::{FileEntry, LineTable, line_table};
use ranges::ranges_reason;
use reason::{Read, Why, reason_in};
pub use reason::{Field, Found, Reason, Spot, Stop, Wanted};
use std::alloc::Global;
use unit::header_reason;
pub use unit::{DW_UT_SPLIT_COMPILE, DW_UT_SPLIT_TYPE, DW_UT_TYPE, UnitHeader, unit_header};

/// Below how many entries one may be, as the reader of functions has it.
const MOST_DEPTH: u64 = 512;

/// Why the abbreviations or the first entry of the unit at an offset can't be read.
fn unit_root_reason(alloc: Global, sections: &Sections<'_>, offset: u64) -> Read<()> {
    let unit = unit_header(sections.info, offset)?;
    abbrevs_reason(sections.abbrevs, offset, unit.debug_abbrev_offset)?;
    root_reason(alloc, sections, &unit)
}

/// Why the ranges of the first entry of the unit at an offset can't be read.
fn unit_ranges_reason(alloc: Global, elf: &Elf<'_>, offset: u64) -> Read<()> {
    let units = match Units::read(alloc, elf) {
        Ok(units) => units,
        Err(OpenFault::Memory) => return Err(Stop::Memory),
        Err(_) => return Ok(()),
    };
    let Some(here) = units.find(offset) else {
        return Ok(());
    };
    match &here.unit().root {
        Some(root) => ranges_reason(here, root),
        None => Ok(()),
    }
}

/// Stops where a refusal has its reason.
fn find_reason(alloc: Global, file: &[u8], fault: OpenFault) -> Read<()> {
    match fault {
        OpenFault::NotElf => return file::magic_reason(file),
        OpenFault::NotElf64Little => return file::class_reason(file),
        OpenFault::Relocatable => return file::type_reason(),
        OpenFault::SectionTable => return file::table_reason(alloc, file),
        OpenFault::SectionRange(name) => return file::range_reason(alloc, file, name),
        OpenFault::Compressed(name) => return file::compressed_reason(alloc, file, name),
        _ => {}
    }
    let Ok(elf) = Elf::open(file) else {
        return Ok(());
    };
    let sections = Sections::of(&elf);
    match fault {
        OpenFault::UnitHeader(offset) => header_reason(sections.info, offset),
        OpenFault::AddressSize(offset) => header_reason(sections.info, offset),
        OpenFault::Root(offset) => unit_root_reason(alloc, &sections, offset),
        OpenFault::RootRanges(offset) => unit_ranges_reason(alloc, &elf, offset),
        _ => Ok(()),
    }
}

/// The first field for which a file was refused. `None` where no reason was found.
pub fn refusal_reason(alloc: Global, file: &[u8], fault: OpenFault) -> Allocated<Why> {
    reason_in(find_reason(alloc, file, fault))
}

/// An entry may not be too deep, and where it is a function its ranges have to be read.
fn check_entry(alloc: Global, here: OpenUnit<'_, '_>, entry: &Entry<'_>, depth: u64) -> Read<()> {
    if depth > MOST_DEPTH {
        let field = "below how many entries it stands";
        let wanted = Wanted::Words("512 at most");
        let spot = Spot::At("entry", entry.offset, ".debug_info");
        return Err(spot.stop(field, Found::Number(depth), wanted));
    }
    if entry.tag != DW_TAG_subprogram && entry.tag != DW_TAG_inlined_subroutine {
        return Ok(());
    }
    match ranges_of(alloc, entry, here.unit(), here.units().tables()) {
        Ok(_) => Ok(()),
        Err(RangeFault::Memory) => Err(Stop::Memory),
        Err(RangeFault::Bad) => ranges_reason(here, entry),
    }
}

/// Why the functions of a unit can't be read: its entries in order, as far as they are read.
fn tree_reason(scene: &Scene<'_>, here: OpenUnit<'_, '_>) -> Read<()> {
    let alloc = scene.alloc;
    let sections = &scene.sections;
    let mut at = here.unit().first_entry;
    let mut depth = 0u64;
    for _ in here.unit().offset..here.unit().end {
        if at >= here.unit().end {
            return Ok(());
        }
        match here.entry(alloc, at) {
            Ok(Some(entry)) => {
                check_entry(alloc, here, &entry, depth)?;
                at = entry.next;
                depth = depth.saturating_add(u64::from(entry.children));
            }
            Ok(None) => {
                at = here.past_null(at);
                depth = depth.saturating_sub(1);
            }
            Err(FormFault::Memory) => return Err(Stop::Memory),
            Err(_) => {
                let unit = unit_header(sections.info, here.unit().offset)?;
                return push_attributes(alloc, sections, &unit, at, &mut Vec::new(alloc));
            }
        }
        if depth == 0 {
            return Ok(());
        }
    }
    Ok(())
}

/// Why a unit has a fault. `None` where no reason was found.
pub fn fault_reason(scene: &Scene<'_>, here: OpenUnit<'_, '_>, fault: UnitFault) -> Allocated<Why> {
    match (fault, table_offset(here)) {
        (UnitFault::Line, Some(offset)) => {
            reason_in(line_reason(scene.alloc, scene.sections.line, offset))
        },
        (UnitFault::Line, None) => Ok(None),
        _ => reason_in(tree_reason(scene, here)),
    }
}
