//! The line tables that were used last: together no longer than .debug_line.

ghost use Rattle.std.specs.Prelude.{◌≡◌, ◌≤◌, ◌+◌, List, ℕ, IfOk, IfSome, OnOk, length, map};
ghost use Rattle.dw_line.specs.TableAt.{table_size};
ghost use Rattle.dw_frames.specs.Told.{described_shown};
ghost use Rattle.dw_symbols.specs.Answer.{answer_shown, piece_shown};
ghost use Rattle.dw_symbols.specs.Frames.{answer_told};
ghost use Rattle.dw_symbols.specs.ImageUnit.{sections_in, unit_in};
ghost use Rattle.dw_symbols.specs.Span.{AddsUnit};

use crate::answer::{Answer, Piece, UnitFault};
use crate::image_unit::ImageUnit;
use crate::span::Span;
use crate::unit_answers::{frames_by, push_pieces_by};
use crate::unit_parts::{UnitLines, table_after, table_offset};
use dw_frames::Described;
use dw_line::table_size;
use lru::LruCache;
use std::alloc::{AllocError, Global};

/// The line tables that are kept. Those of an honest file lie side by side, so all of them may be
/// kept; of tables that have bytes in common, which would each keep its own copy of what the file
/// has once, only so many are that together they are no longer than .debug_line.
#[derive(Drop)]
pub(crate) struct KeptTables<'a> {
    /// By their offsets in .debug_line, the last used first.
    tables: LruCache<u64, UnitLines<'a>>,
    /// The bytes of .debug_line that they have, at most, counted for each of them.
    size: usize,
    /// Whether one went to make room for another. No promise rests on it.
    has_dropped: bool,
}

impl<'a> KeptTables<'a> {
    ghost use Rattle.dw_symbols.specs.Kept.{AreTables, IsKeptAt};
    ghost use Rattle.dw_symbols.specs.UnitParts.{IsTable, IsTableAt};

    /// No table is kept yet.
    pub(crate) fn new(alloc: Global) -> Result<Self, AllocError>
        ensures { (line : List ℕ) → IfOk result (AreTables line) }
    {
        let tables = LruCache::unbounded(alloc)?;
        Ok(KeptTables {
            tables,
            size: 0,
            has_dropped: false,
        })
    }

    /// Whether a table went to make room: it may be read again and again.
    pub(crate) fn has_dropped(&self) -> bool {
        self.has_dropped
    }

    /// Lets the tables go that were used longest ago, until the one at an offset may be kept too,
    /// and returns the one that went last.
    fn make_room(&mut self, line: &[u8], offset: u64) -> Option<UnitLines<'a>>
        requires kept { AreTables line.now self.old }
        ensures kept { AreTables line.now self.new }
        ensures room { self.new.size + table_size line.now offset ≤ length line.now }
        ensures gone { IfSome result (IsTable line.now) }
    {
        let most = line.len() - table_size(line, offset);
        let mut gone = None;
        while self.size > most {
            self.has_dropped = true;
            let Some((oldest, table)) = self.tables.pop_lru() else {
                self.size = 0;
                return gone;
            };
            gone = Some(table);
            self.size = self.size.saturating_sub(table_size(line, oldest));
        }
        gone
    }

    /// Keeps a line table, for which room was made.
    fn put(&mut self, line: &[u8], offset: u64, lines: UnitLines<'a>) -> Result<(), AllocError>
        requires kept { AreTables line.now self.old }
        requires room { self.old.size + table_size line.now offset ≤ length line.now }
        requires table { IsTableAt line.now offset lines }
        ensures kept { AreTables line.now self.new }
        ensures there { OnOk result (IsKeptAt offset self.new) }
    {
        match self.tables.put(offset, lines) {
            Ok(_) => {
                self.size += table_size(line, offset);
                Ok(())
            }
            Err(_) => Err(AllocError),
        }
    }

    /// Keeps the line table at an offset, which is read if it isn't kept. Room is made first; the
    /// table that went last stays until the new one is read, which may have the same rows.
    fn hold(
        &mut self,
        alloc: Global,
        unit: ImageUnit<'_, 'a>,
        offset: u64,
    ) -> Result<(), AllocError>
        requires { AreTables (sections_in unit).line self.old }
        ensures kept { AreTables (sections_in unit.entry).line self.new }
        ensures there { OnOk result (IsKeptAt offset self.new) }
    {
        if self.tables.contains(&offset) {
            return Ok(());
        }
        let line = unit.line();
        let gone = self.make_room(line, offset);
        let lines = table_after(alloc, line, unit.open(), offset, gone)?;
        self.put(line, offset, lines)
    }

    /// What an address of a unit means, by the functions at it and by the line table that the unit
    /// names.
    pub(crate) fn frames(
        &mut self,
        alloc: Global,
        unit: ImageUnit<'_, 'a>,
        functions: &[Described<'a>],
        a: u64,
    ) -> Result<Answer<'a>, AllocError>
        requires kept { AreTables (sections_in unit).line self.old }
        ensures kept { AreTables (sections_in unit.entry).line self.new }
        ensures answer { IfOk result (λ answer. answer_shown answer
            ≡ answer_told (sections_in unit.entry) (unit_in unit.entry) (map described_shown functions.now) a) }
    {
        let here = unit.open();
        let Some(offset) = table_offset(here) else {
            let mut none = Ok(None);
            return frames_by(&mut none, alloc, here, functions, a);
        };
        self.hold(alloc, unit, offset)?;
        let Some(lines) = self.tables.get_mut(&offset) else {
            unreachable!()
        };
        frames_by(lines, alloc, here, functions, a)
    }

    /// Adds the pieces of a span, of which a unit answers all addresses, by the line table that the
    /// unit names; or returns why that can't be read.
    pub(crate) fn push_pieces(
        &mut self,
        alloc: Global,
        unit: ImageUnit<'_, 'a>,
        span: Span,
        pieces: &mut Vec<Piece>,
    ) -> Result<Option<UnitFault>, AllocError>
        requires kept { AreTables (sections_in unit).line self.old }
        requires order { span.low ≤ span.high }
        ensures kept { AreTables (sections_in unit.entry).line self.new }
        ensures pieces { IfOk result (λ fault. AddsUnit (sections_in unit.entry) (unit_in unit.entry) span fault
            (map piece_shown pieces.old.items) (map piece_shown pieces.new.items)) }
    {
        let here = unit.open();
        let Some(offset) = table_offset(here) else {
            let mut none = Ok(None);
            return push_pieces_by(&mut none, alloc, here, span, pieces);
        };
        self.hold(alloc, unit, offset)?;
        let Some(lines) = self.tables.get_mut(&offset) else {
            unreachable!()
        };
        push_pieces_by(lines, alloc, here, span, pieces)
    }
}
