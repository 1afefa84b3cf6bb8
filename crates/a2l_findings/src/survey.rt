//! What is found in the units of a file that can puzzle its user.

ghost use Rattle.std.specs.Prelude.{◌<◌, length};
ghost use Rattle.dw_model.specs.Unit as cut;

use crate::note::Allocated;
use crate::overlaps::{Overlap, Owned, both, overlap_of, subprograms_of};
use crate::reasons::{unit_header, uses_supplementary};
use crate::scene::{Scene, ranges_in, read_functions, read_lines};
use dw_symbols::UnitFault;
use dw_units::{Kind, OpenUnit};
use std::alloc::Global;

/// Why units are reported.
#[derive(Clone, Copy, Debug, PartialEq, Eq)]
pub enum Matter {
    /// They are skipped. The type is a DW_UT code, where there is one that can be read.
    Skipped { version: u16, unit_type: Option<u8> },
    /// They answer and have code, but no ranges.
    WithoutRanges,
    /// Their functions are in other files.
    Skeleton,
    /// They name a supplementary file.
    Supplementary,
    /// They can't be read.
    Faulty(UnitFault),
}

/// Units that are reported for the same: how many, and the index of the first.
#[derive(Clone, Copy, Debug)]
pub struct Group {
    pub matter: Matter,
    pub count: usize,
    pub first: usize,
}

/// What was found in the units so far.
#[derive(Drop)]
pub struct Survey {
    /// The ranges of the units that answer.
    pub ranges: Vec<Owned>,
    pub groups: Vec<Group>,
    pub functions_over: Option<Overlap>,
    /// The table of abbreviations that was looked at last, and what was found in it.
    last_table: Option<(u64, bool)>,
}

/// Counts a unit among those of a matter, where one came before.
fn is_counted(groups: &mut Vec<Group>, matter: Matter) -> bool {
    for group in groups.iter_mut() {
        if group.matter == matter {
            group.count = group.count.saturating_add(1);
            return true;
        }
    }
    false
}

impl Survey {
    /// Nothing was found yet.
    pub fn new(alloc: Global) -> Self {
        Survey {
            ranges: Vec::new(alloc),
            groups: Vec::new(alloc),
            functions_over: None,
            last_table: None,
        }
    }

    /// Counts the unit at an index among those of a matter.
    fn count(&mut self, matter: Matter, first: usize) -> Allocated<()> {
        if is_counted(&mut self.groups, matter) {
            return Ok(());
        }
        self.groups.push(Group {
            matter,
            count: 1,
            first,
        })?;
        Ok(())
    }

    /// The table at an offset leads to a supplementary file. Units that share one are side by side.
    fn leads_elsewhere(&mut self, scene: &Scene<'_>, offset: u64) -> bool {
        if let Some((last, leads)) = self.last_table {
            if last == offset {
                return leads;
            }
        }
        let leads = uses_supplementary(scene.sections.abbrevs, offset);
        self.last_table = Some((offset, leads));
        leads
    }

    /// Looks at the header of a unit, and at what it says of other files.
    fn look_at_header(&mut self, scene: &Scene<'_>, here: OpenUnit<'_, '_>) -> Allocated<()> {
        let unit = here.unit();
        if unit.kind.is_skipped() {
            let version = unit.version;
            let header = unit_header(scene.sections.info, unit.offset).ok();
            let unit_type = header.and_then(|header| header.unit_type);
            return self.count(Matter::Skipped { version, unit_type }, here.index());
        }
        if let Kind::Skeleton = unit.kind {
            self.count(Matter::Skeleton, here.index())?;
        }
        if self.leads_elsewhere(scene, unit.debug_abbrev_offset) {
            self.count(Matter::Supplementary, here.index())?;
        }
        Ok(())
    }

    /// Looks at the functions and the lines of the unit at an index.
    fn look_inside(&mut self, scene: &Scene<'_>, index: usize) -> Allocated<()>
        requires { index < length (cut.units scene.now.units.value.info) }
    {
        let here = scene.units.at(index);
        let ranges = ranges_in(scene.alloc, here)?;
        for range in ranges.as_slice() {
            self.ranges.push((*range, here.unit().offset as usize))?;
        }
        let (has_functions, tree_fault) = match read_functions(scene, index)? {
            Some(Ok(_)) => (true, None),
            Some(Err(fault)) => (false, Some(fault)),
            None => (false, None),
        };
        let (has_rows, line_fault) = match read_lines(scene, here)? {
            Ok(Some(lines)) => (lines.has_rows(), None),
            Ok(None) => (false, None),
            Err(fault) => (false, Some(fault)),
        };
        if let Some(fault) = tree_fault.or(line_fault) {
            self.count(Matter::Faulty(fault), here.index())?;
        }
        let functions = subprograms_of(scene.alloc, here)?;
        if ranges.is_empty() && (has_rows || !functions.is_empty()) {
            self.count(Matter::WithoutRanges, here.index())?;
        }
        if has_functions {
            let found = overlap_of(scene, &functions)?;
            self.functions_over = both(self.functions_over, found);
        }
        Ok(())
    }

    /// Looks at the unit at an index.
    pub fn look_at(&mut self, scene: &Scene<'_>, index: usize) -> Allocated<()>
        requires { index < length (cut.units scene.now.units.value.info) }
    {
        let here = scene.units.at(index);
        self.look_at_header(scene, here)?;
        if here.unit().kind.answers() {
            return self.look_inside(scene, index);
        }
        Ok(())
    }
}
