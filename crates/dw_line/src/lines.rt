//! A line table: the row of an address, and the path of a file.

ghost use Rattle.std.specs.Prelude.{◌≡◌, ◌≤◌, ◌<◌, ◌+◌, ◌*◌, ℕ, true, false, Ok, Some, IfOk, IfErr, option_map, length};
ghost use Rattle.std.specs.Prelude.{nat_lt, if◌then◌else◌};
ghost use Rattle.dw_model.specs.Answers.{GivesUnlessMemory};
ghost use Rattle.dw_model.specs.Matrix.{row_of};
ghost use Rattle.dw_model.specs.Path.{path};
ghost use Rattle.dw_model.specs.Steady.{IsSteady, last_address};
ghost use Rattle.dw_forms.specs.Tables.{tables_shown, bases_shown};
ghost use Rattle.dw_line.specs.Border.{OwnerEnds};
ghost use Rattle.dw_line.specs.Fault.{line_fault};
ghost use Rattle.dw_line.specs.Header.{without_lists};
ghost use Rattle.dw_line.specs.Lines.{lines_of, TellsEach};
ghost use Rattle.dw_line.specs.Kept.{least_held, most_held};
ghost use Rattle.dw_line.specs.Reached.{IsLast, FindsRow, IsRowOf};
ghost use Rattle.dw_line.specs.Search.{row_told, told_at};
ghost use Rattle.dw_line.specs.Sequences.{used_sequences, checkpoint_count, most_checkpoints, number_among, IsOwner};
ghost use Rattle.dw_line.specs.TableAt.{table_size};

use crate::checkpoints::{Checkpoint, Checkpoints, Sequence};
use crate::fault::LineFault;
use crate::header::{Header, have_same_rows, header_at};
use crate::leaps::{Leap, long_ways};
use crate::path::{AskingUnit, join, join_some};
use crate::program::run_program;
use crate::rows::Row;
use crate::search::{Last, last_in, row_onward};
use crate::sequences::{Owner, index_of, own_checkpoints};
use crate::walk::Walk;
use dw_bytes::Steps;
use dw_forms::{Bases, Tables};
use dw_index::Index;
use std::alloc::{AllocError, Global};
use std::marker::{Brand, Model};
use std::sync::ledger::{Blank, Ledger};

/// A line table, for one unit after the other of those that name it. Contracts see where it begins,
/// its header with the unit's texts, the rows of its program's matrix, and the directory in which
/// the unit was compiled.
#[derive(Debug, Drop)]
pub struct Lines<'a> {
    header: Header<'a>,
    /// Those of all used sequences, one sequence after the other.
    checkpoints: Vec<Checkpoint>,
    sequences: Vec<Sequence>,
    /// The long ways between two rows.
    leaps: Vec<Leap>,
    /// Finds the first sequence that holds an address.
    index: Index,
    /// The row that `row_in_order` found last.
    last: Option<Last>,
    /// The unit that asks for paths.
    unit: AskingUnit<'a>,
    /// .debug_line, and where the table begins there.
    section: &'a [u8],
    offset: u64,
}

impl<'a> Model for Lines<'a> {
    ghost use Rattle.dw_line.specs.Lines.{Table};
    ghost use Rattle.dw_line.specs.LinesInside.{lines_in, AreRead};

    ghost Value = { Table };

    ghost view = { lines_in };

    ghost invariant = { AreRead };
}

/// How many bytes a path of these parts takes at most, so that it is allocated once.
fn room_for(top: &[u8], directory: Option<&[u8]>, name: &[u8]) -> usize {
    let inner = match directory {
        Some(directory) => directory.len(),
        None => 0,
    };
    let slashes = 2;
    top.len()
        .saturating_add(inner)
        .saturating_add(name.len())
        .saturating_add(slashes)
}

impl<'a> Lines<'a> {
    /// Reads the table at an offset of .debug_line, of a unit with these bases that was compiled in
    /// a directory, in time linear in the table's length but for the index of its sequences
    /// (section 6.2).
    ///
    /// `Bad` where its header or its program can't be read: the table, the header or a list runs
    /// past its end, the version isn't 5, addresses aren't of 8 bytes, an instruction has more than
    /// one operation, line_range or opcode_base is 0, a form is unknown, an extended opcode has the
    /// wrong length, or a number doesn't fit 64 bits. `Memory` comes only where an allocation was
    /// refused.
    pub fn read(
        alloc: Global,
        line_section: &'a [u8],
        tables: &Tables<'a>,
        bases: &Bases,
        comp_dir: Option<&'a [u8]>,
        offset: u64,
    ) -> Result<Self, LineFault>
        ensures table { GivesUnlessMemory (λ lines. lines) line_fault result
            (lines_of (tables_shown tables.now) (bases_shown bases.now) line_section.now
            (option_map (λ directory. directory.now) comp_dir.entry) offset) }
        ensures place { IfOk result (λ lines. (lines.section ≡ line_section.now) × (lines.offset ≡ offset)) }
        ensures fault { IfErr result (TellsEach line_section.now offset) }
    {
        let header = header_at(alloc, line_section, offset)?;
        let recorded = run_program(alloc, &header)?;
        let leaps = long_ways(alloc, &header, &recorded.checkpoints)?;
        let Checkpoints {
            checkpoints,
            sequences,
            ..
        } = recorded;
        let index = index_of(alloc, &sequences)?;
        Ok(Lines {
            header,
            checkpoints,
            sequences,
            leaps,
            index,
            last: None,
            unit: AskingUnit {
                tables: *tables,
                bases: *bases,
                comp_dir,
            },
            section: line_section,
            offset,
        })
    }

    /// Turns to another unit that names the table, with these bases and the directory in which it
    /// was compiled: paths are then those that this unit's table would have. The rows are the same.
    pub fn turn_to(&mut self, tables: &Tables<'a>, bases: &Bases, comp_dir: Option<&'a [u8]>)
        ensures table { lines_of (tables_shown tables.now) (bases_shown bases.now) self.old.section
            (option_map (λ directory. directory.now) comp_dir.entry) self.old.offset ≡ Ok self.new }
        ensures place { (self.new.section ≡ self.old.section) × (self.new.offset ≡ self.old.offset) }
    {
        self.unit = AskingUnit {
            tables: *tables,
            bases: *bases,
            comp_dir,
        };
    }

    /// Turns to the table at another offset of the section and to a unit that names it, as
    /// `turn_to` does, and returns whether that was done: only where its header was read, for which
    /// an allocation may be refused, and its program is the same bytes, run in the same way. So it
    /// has the same rows, and the program isn't run again.
    pub fn turn_to_table(
        &mut self,
        alloc: Global,
        tables: &Tables<'a>,
        bases: &Bases,
        comp_dir: Option<&'a [u8]>,
        offset: u64,
    ) -> bool
        ensures table { result ≡ true → lines_of (tables_shown tables.now) (bases_shown bases.now) self.old.section
            (option_map (λ directory. directory.now) comp_dir.entry) offset ≡ Ok self.new }
        ensures section { self.new.section ≡ self.old.section }
        ensures offset { self.new.offset ≡ (if result then offset else self.old.offset) }
        ensures stays { result ≡ false → self.new ≡ self.old }
    {
        let Ok(header) = header_at(alloc, self.section, offset) else {
            return false;
        };
        if !have_same_rows(self.section, &self.header, self.offset, &header, offset) {
            return false;
        }
        self.header = header;
        self.offset = offset;
        self.turn_to(tables, bases, comp_dir);
        true
    }

    /// The row of an address: in the first used sequence, in program order, from whose first
    /// address on and below whose end it lies, the last row whose address isn't above it. It is
    /// found by halves among the sequences and among the checkpoints of one, from which rows are
    /// run again. Takes no memory.
    pub fn row(&self, address: u64) -> Option<Row>
        ensures { result ≡ option_map row_told (row_of self.now.rows address) }
    {
        self.find_row(&None, address)
            .map(|last| last.reached.told())
    }

    /// The row of an address, as `row` finds it. A step is a row that is run again: there are at
    /// most 64.
    pub fn row_counted<L: Ledger>(&self, address: u64, steps: &mut Steps<L>) -> Option<Row>
        ensures row { result ≡ option_map row_told (row_of self.now.rows address) }
        ensures counted { steps.new ≤ steps.old + 64 }
    {
        let Some(number) = self.index.find(address) else {
            return None;
        };
        let found = self.row_of_sequence(number, &None, address, steps);
        Some(found.reached.told())
    }

    /// The row of an address, as `row` finds it. It takes less time where addresses are asked for
    /// in order: from the row that was found last rows are run on, if the address lies in the same
    /// sequence, at that row or after it, and before the next checkpoint. Takes no memory.
    pub fn row_in_order(&mut self, address: u64) -> Option<Row>
        ensures row { result ≡ option_map row_told (row_of self.old.rows address) }
        ensures table { self.new ≡ self.old }
    {
        let found = self.find_row(&self.last, address)?;
        self.last = Some(found);
        Some(found.reached.told())
    }

    /// The row of an address, from the row that was found last if that serves.
    fn find_row(&self, last: &Option<Last>, address: u64) -> Option<Last>
        requires { IsLast (without_lists self.now.header) (used_sequences self.now.rows) last.now }
        ensures { FindsRow (without_lists self.now.header) self.now.rows address result }
    {
        let Some(number) = self.index.find(address) else {
            return None;
        };
        Some(self.row_uncounted::<Brand>(number, last, address, Blank::new(1)))
    }

    /// The same as `row_of_sequence`, with a counter of its own.
    pub(crate) fn row_uncounted<L: Ledger>(
        &self,
        number: usize,
        last: &Option<Last>,
        address: u64,
        blank: Blank,
    ) -> Last
        requires name { blank.name ≡ L.name }
        requires parts { blank.parts ≡ L.parts }
        requires some { 0 < L.parts }
        requires number { number_among (used_sequences self.now.rows) address ≡ Some number }
        requires last { IsLast (without_lists self.now.header) (used_sequences self.now.rows) last.now }
        ensures { IsRowOf (without_lists self.now.header) self.now.rows number address result }
    {
        let mut steps = Steps::<L>::new(blank);
        self.row_of_sequence(number, last, address, &mut steps)
    }

    /// The row of an address in the used sequence of a number, which is the first that holds the
    /// address, from the row that was found last if that serves.
    fn row_of_sequence<L: Ledger>(
        &self,
        number: usize,
        last: &Option<Last>,
        address: u64,
        steps: &mut Steps<L>,
    ) -> Last
        requires number { number_among (used_sequences self.now.rows) address ≡ Some number }
        requires last { IsLast (without_lists self.now.header) (used_sequences self.now.rows) last.now }
        ensures row { IsRowOf (without_lists self.now.header) self.now.rows number address result }
        ensures counted { steps.new ≤ steps.old + 64 }
    {
        let Some(sequence) = self.sequences.get(number) else {
            unreachable!()
        };
        let checkpoints = own_checkpoints(&self.checkpoints, *sequence);
        let last = last_in(last, number);
        let Some(reached) = row_onward(&self.header, &self.leaps, checkpoints, last, address, steps)
        else {
            unreachable!()
        };
        Last { number, reached }
    }

    /// The used sequence that holds an address, if one does, and up to where it is the same.
    pub(crate) fn owner_from(&self, a: u64) -> Owner
        requires { a < last_address }
        ensures after { a < result.until }
        ensures owner { IsOwner self.now.rows result.number a result.until }
        ensures border { OwnerEnds self.now.rows result.number result.until }
    {
        let found = self.index.find_from(a, &mut 0);
        Owner {
            number: found.owner,
            until: found.until,
        }
    }

    /// Goes from row to row through the addresses from `low` on and below `high`. Takes no memory.
    pub fn walk<'b>(&'b self, low: u64, high: u64) -> Walk<'b, 'a>
        ensures table { result.table ≡ self.now }
        ensures span { (result.at ≡ low) × (result.high ≡ high) }
    {
        Walk::new(self, low, high)
    }

    /// The least address above one at which `row` returns something else than there; 2^64 - 1 where
    /// there is none. So `row` returns the same from the address on and below the one that is
    /// returned. It runs the rows between these two, and at most 64 before them. Takes no memory.
    pub fn steady(&self, a: u64) -> u64
        requires above { a < last_address }
        ensures steady { IsSteady (told_at self.now.rows) a result }
    {
        let mut walk = self.walk(a, u64::MAX);
        let Some(first) = walk.next() else {
            return u64::MAX;
        };
        loop {
            let Some(stretch) = walk.next() else {
                return u64::MAX;
            };
            if stretch.row != first.row {
                return stretch.begin;
            }
        }
    }

    /// How many checkpoints are kept, each with a row's registers: of each used sequence one at its
    /// first row and at each 64th row after it. So they are at most one for 64 rows of used
    /// sequences, and one for each of these.
    pub fn kept(&self) -> usize
        ensures exact { result ≡ checkpoint_count (used_sequences self.now.rows) }
        ensures bound { result ≤ most_checkpoints (used_sequences self.now.rows) }
    {
        self.checkpoints.len()
    }

    /// How many other things are kept: the used sequences and the segments of their index, the ways
    /// of more than 64 bytes without a row, the directories and the files. With the checkpoints
    /// these are at most twice the bytes of the table, and nothing else grows with it but the
    /// formats of a long list, at most 255.
    pub fn held(&self) -> usize
        ensures bound { result ≤ most_held self.now }
        ensures bytes { checkpoint_count (used_sequences self.now.rows) + result
            ≤ 2 * table_size self.now.section self.now.offset }
        ensures least { least_held self.now ≤ result }
    {
        self.sequences.len()
            + self.index.segment_count()
            + self.leaps.len()
            + self.header.directories.len()
            + self.header.files.len()
    }

    /// Whether some sequence of its rows is used.
    pub fn has_rows(&self) -> bool
        ensures { result ≡ nat_lt 0 (length (used_sequences self.now.rows)) }
    {
        self.sequences.len() > 0
    }

    /// The path of a file, numbered from 0 on: from directory 0, else from the directory in which
    /// the unit was compiled, by the file's directory to its name (section 6.2.4). `None` where the
    /// file isn't there or its name can't be read; an error where an allocation was refused.
    #[tactic(auto, unfolding(dw_model::specs::Path::path))]
    pub fn path(&self, alloc: Global, n: u64) -> Result<Option<Vec<u8>>, AllocError>
        ensures { IfOk result (λ found. option_map (λ path. path.items) found
            ≡ path self.now.header self.now.comp_dir n) }
    {
        let Some(file) = self.header.files.get(n) else {
            return Ok(None);
        };
        let Some(name) = self.unit.text_of(&file) else {
            return Ok(None);
        };
        let top = self.unit.top(&self.header);
        let directory = self.unit.file_directory(&self.header, &file);
        let mut path = Vec::with_capacity(alloc, room_for(top, directory, name))?;
        path.extend_from_slice(top)?;
        join_some(&mut path, directory)?;
        join(&mut path, name)?;
        Ok(Some(path))
    }
}
