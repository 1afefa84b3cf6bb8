//! The functions at an address: where their names come from, and where each inlined one was called.

use crate::note::{Allocated, Fact, Note, Words};
use crate::overlaps::subprograms_of;
use crate::scene::{holding, ranges_at};
use crate::way::Visit;
use dw_forms::{FormFault, Value};
use dw_frames::{EntryId, Tree};
use dw_model::dwarf::{
    DW_AT_abstract_origin, DW_AT_linkage_name, DW_AT_name, DW_AT_specification,
    DW_TAG_inlined_subroutine,
};
use dw_ranges::Range;
use dw_units::{Entry, OpenUnit};
use std::alloc::{AllocError, Global};

/// How many references are followed to a name.
const REFERENCES: usize = 16;

/// Adds where an inlined function was called.
fn tell_call(note: &mut Note<'_>, tree: &Tree<'_>, id: EntryId) -> Allocated<()> {
    let call = tree.call(id);
    note.begin_group("call");
    note.say(", called")?;
    note.tell(" in file ", "file", Fact::count(call.file))?;
    note.tell(" at line ", "line", Fact::count(call.line))?;
    note.tell(" column ", "column", Fact::count(call.column))
}

/// Another subprogram of a unit, of which a range holds the address, too.
fn other_note<'a>(alloc: Global, tree: &Tree<'a>, id: EntryId, by: Range) -> Allocated<Note<'a>> {
    let mut note = Note::new(alloc, "other_function");
    note.place("function ", "entry", id.offset)?;
    note.tell(" ", "name", Fact::text(tree.name(id)))?;
    note.span(" claims it too, by its range ", by)?;
    note.say(", but stands later in the unit")?;
    Ok(note)
}

/// An attribute by which an entry has a name, where its text can be read.
fn own_name<'a>(here: OpenUnit<'_, 'a>, entry: &Entry<'a>) -> Option<Words> {
    for (name, text) in [
        (DW_AT_linkage_name, "DW_AT_linkage_name"),
        (DW_AT_name, "DW_AT_name"),
    ] {
        if let Some(value) = entry.attr(name) {
            if here.find_text(value).is_some() {
                return Some(text);
            }
        }
    }
    None
}

/// The attribute by which an entry refers to another one, and the offset to which it leads.
fn reference(here: OpenUnit<'_, '_>, entry: &Entry<'_>) -> Option<(Words, u64)> {
    let (name, value) = match entry.attr(DW_AT_abstract_origin) {
        Some(value) => ("DW_AT_abstract_origin", value),
        None => ("DW_AT_specification", entry.attr(DW_AT_specification)?),
    };
    match *value {
        Value::UnitRef(n) => Some((name, here.unit().offset.checked_add(n)?)),
        Value::SectionRef(n) => Some((name, n)),
        _ => None,
    }
}

/// The entry at an offset of a unit; `None` for a null entry, and where it can't be read.
fn entry_in<'a>(alloc: Global, here: OpenUnit<'_, 'a>, at: u64) -> Allocated<Option<Entry<'a>>> {
    match here.entry(alloc, at) {
        Ok(entry) => Ok(entry),
        Err(FormFault::Memory) => Err(AllocError),
        Err(_) => Ok(None),
    }
}

impl<'b, 'a> Visit<'b, 'a> {
    /// Adds where the name of an entry of a unit comes from.
    fn tell_name(self, note: &mut Note<'a>, entry: Entry<'a>) -> Allocated<()> {
        let mut here = self.here;
        let mut entry = entry;
        for _ in 0..=REFERENCES {
            if let Some(attribute) = own_name(here, &entry) {
                note.tell(", its name by ", "", Fact::Words(attribute))?;
                return note.place(" of entry ", "named_at", entry.offset);
            }
            let Some((attribute, offset)) = reference(here, &entry) else {
                return note.say(", without a name");
            };
            note.tell(", through ", "", Fact::Words(attribute))?;
            note.place(" to ", "", offset)?;
            let Some(there) = here.units().find(offset) else {
                return note.say(" where no unit is, so without a name");
            };
            let Some(found) = entry_in(self.scene.alloc, there, offset)? else {
                return note.say(" where no entry is, so without a name");
            };
            here = there;
            entry = found;
        }
        note.say(", and that is one reference too many, so without a name")
    }

    /// A function at the address: its entry, its range, its name, and where it was called.
    fn function_note(self, tree: &Tree<'a>, id: EntryId) -> Allocated<Note<'a>> {
        let mut note = Note::new(self.scene.alloc, "function");
        let entry = entry_in(self.scene.alloc, self.here, id.offset)?;
        let (words, is_inlined) = match &entry {
            Some(entry) if entry.tag == DW_TAG_inlined_subroutine => ("inlined function ", true),
            _ => ("function ", false),
        };
        note.place(words, "entry", id.offset)?;
        note.tell(" ", "name", Fact::text(tree.name(id)))?;
        if let Some(entry) = entry {
            self.tell_range(&mut note, &ranges_at(self.scene.alloc, self.here, &entry)?)?;
            self.tell_name(&mut note, entry)?;
        }
        if is_inlined {
            tell_call(&mut note, tree, id)?;
        }
        Ok(note)
    }

    /// Adds the subprograms that claim the address, beside the outermost function at it.
    fn push_others(self, steps: &mut Vec<Note<'a>>, tree: &Tree<'a>, id: EntryId) -> Allocated<()> {
        for (range, offset) in subprograms_of(self.scene.alloc, self.here)? {
            let offset = offset as u64;
            if offset != id.offset && holding(&[range], self.address).is_some() {
                let other = EntryId { offset, ..id };
                steps.push(other_note(self.scene.alloc, tree, other, range)?)?;
            }
        }
        Ok(())
    }

    /// Adds the functions at the address, innermost first, and others that claim it.
    pub(super) fn push_chain(self, steps: &mut Vec<Note<'a>>, tree: &Tree<'a>) -> Allocated<()> {
        let chain = tree.chain(self.scene.alloc, self.address)?;
        for id in chain.as_slice() {
            steps.push(self.function_note(tree, *id)?)?;
        }
        if let Some(outermost) = chain.as_slice().last().copied() {
            return self.push_others(steps, tree, outermost);
        }
        let words = "no subprogram of the unit has a range that holds it, so the frame has no name";
        steps.push(Note::of(self.scene.alloc, "no_function", words)?)?;
        Ok(())
    }
}
