//! The row of an address, the rows around it, and the file that the row names.

use crate::note::{Allocated, Fact, Note, Words};
use crate::reasons::{FileEntry, LineTable, Stop, line_table};
use crate::scene::root_text;
use crate::way::Visit;
use dw_line::{Lines, Row, Stretch};
use dw_model::dwarf::DW_AT_comp_dir;
use dw_ranges::Range;
use dw_units::OpenUnit;
use std::alloc::{AllocError, Global};

/// The row at an address, where the rows without a gap around it begin, and what comes after it.
#[derive(Clone, Copy)]
struct Place {
    begin: u64,
    stretch: Stretch,
    next: Option<Stretch>,
}

/// Where an address is in a line table, whose rows are gone through from the first on.
fn place_of(lines: &Lines<'_>, address: u64) -> Option<Place> {
    let mut walk = lines.walk(0, u64::MAX);
    let mut begin = 0;
    let mut is_open = false;
    for _ in 0..u64::MAX {
        let stretch = walk.next()?;
        if stretch.row.is_some() && !is_open {
            begin = stretch.begin;
        }
        is_open = stretch.row.is_some();
        if address < stretch.end {
            return Some(Place {
                begin,
                stretch,
                next: walk.next(),
            });
        }
    }
    None
}

/// Adds what a row says.
fn tell_row(note: &mut Note<'_>, words: Words, row: Row) -> Allocated<()> {
    note.count(words, "file", row.file)?;
    note.count(" line ", "line", row.line)?;
    note.count(" column ", "column", row.column)
}

/// The row of an address, or that it has none.
fn row_note<'a>(alloc: Global, table: u64, place: Option<Place>) -> Allocated<Note<'a>> {
    let mut note = Note::new(alloc, "row");
    note.place("line table ", "table", table)?;
    let Some(place) = place else {
        note.say(" has no row for it")?;
        return Ok(note);
    };
    let Stretch { begin, end, row } = place.stretch;
    let range = Range { begin, end };
    let Some(row) = row else {
        note.kind = "no_row";
        note.span(" has no row for it: none from ", range)?;
        return Ok(note);
    };
    note.place(": rows from ", "first", place.begin)?;
    note.span(" on, the row of ", range)?;
    tell_row(&mut note, ": file ", row)?;
    note.begin_group("next");
    match place.next {
        Some(Stretch { row: Some(row), .. }) => tell_row(&mut note, "; the next: file ", row)?,
        _ => note.say("; it is the last")?,
    }
    Ok(note)
}

/// The text to which the path of a directory or a file leads.
fn path_of<'a>(here: OpenUnit<'_, 'a>, entry: Option<&FileEntry<'a>>) -> Fact<'a> {
    match entry.and_then(|entry| entry.path) {
        Some(path) => Fact::text(here.text(&path)),
        None => Fact::Nothing,
    }
}

/// Adds how a path was joined: from directory 0, by the file's directory, to its name.
fn tell_parts<'a>(
    note: &mut Note<'a>,
    here: OpenUnit<'_, 'a>,
    table: &LineTable<'a>,
    file: &FileEntry<'a>,
) -> Allocated<()> {
    note.tell(" is ", "name", path_of(here, Some(file)))?;
    let directory = table.directories.get(file.directory as usize);
    if let Fact::Text(directory) = path_of(here, directory) {
        note.count(" in directory ", "directory_index", file.directory)?;
        note.tell(" ", "directory", Fact::Text(directory))?;
    }
    match path_of(here, table.directories.get(0)) {
        Fact::Nothing => {
            let top = root_text(here, DW_AT_comp_dir);
            note.tell(", behind DW_AT_comp_dir ", "top", top)
        }
        top => note.tell(", behind directory 0 ", "top", top),
    }
}

impl<'b, 'a> Visit<'b, 'a> {
    /// The file of a row, and how its path was joined.
    fn file_note(self, offset: u64, number: u64) -> Allocated<Note<'a>> {
        let mut note = Note::new(self.scene.alloc, "file");
        note.count("file ", "file", number)?;
        let scene = self.scene;
        let table = match line_table(scene.alloc, scene.sections.line, offset) {
            Ok(table) => table,
            Err(Stop::Memory) => return Err(AllocError),
            Err(Stop::For(_)) => return Ok(note),
        };
        match table.files.get(number as usize) {
            Some(file) => tell_parts(&mut note, self.here, &table, file)?,
            None => note.say(" isn't in the line table, so its path is `??`")?,
        }
        Ok(note)
    }

    /// Adds the row of the address in the table at an offset, and the file that it names.
    pub(super) fn push_row(
        self,
        steps: &mut Vec<Note<'a>>,
        offset: u64,
        lines: &Lines<'_>,
    ) -> Allocated<()> {
        let place = place_of(lines, self.address);
        steps.push(row_note(self.scene.alloc, offset, place)?)?;
        if let Some(row) = place.and_then(|place| place.stretch.row) {
            steps.push(self.file_note(offset, row.file)?)?;
        }
        Ok(())
    }
}
