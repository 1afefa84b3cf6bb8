//! The steps of an address to its answer: the unit, the functions, the row and the file that give
//! it, and who claims the address too.

mod functions;
mod rows;
mod uncovered;

use crate::note::{Allocated, Note};
use crate::reasons::fault_reason;
use crate::scene::{Scene, holding, ranges_in, read_functions, read_lines, tell_unit};
use dw_ranges::Range;
use dw_symbols::{UnitFault, table_offset};
use dw_units::OpenUnit;
pub use uncovered::uncovered_note;

/// An address in a unit of an open file.
#[derive(Clone, Copy)]
struct Visit<'b, 'a> {
    scene: &'b Scene<'a>,
    here: OpenUnit<'b, 'a>,
    address: u64,
}

impl<'b, 'a> Visit<'b, 'a> {
    /// The unit that answers the address, and the range by which it does.
    fn unit_note(self) -> Allocated<Note<'a>> {
        let mut note = Note::new(self.scene.alloc, "unit");
        tell_unit(&mut note, self.here)?;
        let version = u64::from(self.here.unit().version);
        note.count(" of version ", "version", version)?;
        self.tell_range(&mut note, &ranges_in(self.scene.alloc, self.here)?)?;
        Ok(note)
    }

    /// Adds the range that holds the address, of those of a unit or a function.
    fn tell_range(self, note: &mut Note<'a>, ranges: &[Range]) -> Allocated<()> {
        let Some(range) = holding(ranges, self.address) else {
            return Ok(());
        };
        note.span(": its range ", range)?;
        note.say(" holds it")
    }

    /// Adds the unit, which doesn't answer the address, where its ranges hold it.
    fn push_other(self, steps: &mut Vec<Note<'a>>) -> Allocated<()> {
        let Some(range) = holding(&ranges_in(self.scene.alloc, self.here)?, self.address) else {
            return Ok(());
        };
        let mut note = Note::new(self.scene.alloc, "other_unit");
        tell_unit(&mut note, self.here)?;
        note.span(" claims it too, by its range ", range)?;
        note.say(", but stands later in the file")?;
        steps.push(note)?;
        Ok(())
    }

    /// A fault of the unit.
    fn fault_note(self, fault: UnitFault) -> Allocated<Note<'a>> {
        let mut note = Note::new(self.scene.alloc, "fault");
        note.say("the unit can't be read, by fault ")?;
        note.count("", "fault", u64::from(fault.number()))?;
        note.reason(": ", fault_reason(self.scene, self.here, fault)?)?;
        Ok(note)
    }

    /// Adds the steps in the line table.
    fn push_lines(self, steps: &mut Vec<Note<'a>>) -> Allocated<()> {
        let Some(offset) = table_offset(self.here) else {
            let words = "the unit has no DW_AT_stmt_list, so no path and no line is known";
            steps.push(Note::of(self.scene.alloc, "no_table", words)?)?;
            return Ok(());
        };
        match read_lines(self.scene, self.here)? {
            Ok(Some(lines)) => self.push_row(steps, offset, &lines)?,
            Ok(None) => {}
            Err(fault) => steps.push(self.fault_note(fault)?)?,
        }
        Ok(())
    }
}

/// The steps of an address through the unit at an index.
pub fn steps_through<'a>(
    scene: &Scene<'a>,
    index: usize,
    address: u64,
) -> Allocated<Vec<Note<'a>>> {
    let mut steps = Vec::new(scene.alloc);
    if index >= scene.units.len() {
        return Ok(steps);
    }
    let here = scene.units.at(index);
    let visit = Visit {
        scene,
        here,
        address,
    };
    steps.push(visit.unit_note()?)?;
    for other in 0..scene.units.len() {
        if other == index {
            continue;
        }
        let here = scene.units.at(other);
        Visit { here, ..visit }.push_other(&mut steps)?;
    }
    match read_functions(scene, index)? {
        Some(Ok(tree)) => visit.push_chain(&mut steps, &tree)?,
        Some(Err(fault)) => {
            steps.push(visit.fault_note(fault)?)?;
            return Ok(steps);
        }
        None => {}
    }
    visit.push_lines(&mut steps)?;
    Ok(steps)
}
