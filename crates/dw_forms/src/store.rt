//! The declarations of .debug_abbrev: each is read once, whichever tables it belongs to.

ghost use Rattle.std.specs.Prelude.{◌≡◌, ◌≤◌, ◌⊎◌, ℕ, [], Err, IfOk, IsOk, IfErr, MatchOption, drop, is_some};
ghost use Rattle.std.specs.Prelude.{length, map, option_map, slice_index_or, sum};
ghost use Rattle.dw_model.specs.Abbrev.{abbreviations, declared, next_declaration};
ghost use Rattle.dw_model.specs.Answers.{ReadsOn};
ghost use Rattle.dw_model.specs.Reading.{items, made};
ghost use Rattle.dw_forms.specs.Fault.{form_fault, HidesNoFault, Passes};
ghost use Rattle.dw_forms.specs.Declaration.{declaration_shown};
ghost use Rattle.dw_forms.specs.declared.run.Start.{Start};
ghost use Rattle.dw_forms.specs.StoreInside.{sizes_of, tables_of, AreTabled};
ghost use Rattle.dw_forms.specs.Starts.{AreApart};
ghost use Rattle.dw_forms.specs.Store.{table_from, HasRead, HasTable, IsKept, IsRunAt, IsWithin};

use crate::declaration::{Decl, next_decl};
use crate::fault::FormFault;
use crate::run::{Run, Start};
use crate::starts::Starts;
use dw_bytes::Cursor;
use std::alloc::Global;
use std::marker::Model;

/// Passes over the next declaration of a table; `false` where the table ends.
fn pass_decl(cursor: &mut Cursor<'_>) -> Result<bool, FormFault>
    ensures { ReadsOn (λ found. found) form_fault result (made is_some (next_declaration cursor.old)) cursor.new }
{
    let found = next_decl(cursor)?;
    Ok(found.is_some())
}

/// Passes over a table. This takes no memory.
fn pass_table(cursor: &mut Cursor<'_>) -> Result<(), FormFault>
    ensures { Passes result (items (λ p. p.left) next_declaration cursor.old) cursor.new }
{
    loop {
        if !pass_decl(cursor)? {
            return Ok(());
        }
    }
}

/// Why a table isn't read: its first fault, or `Memory` where it has none.
fn fault_in_table(cursor: &mut Cursor<'_>) -> FormFault
    ensures fault { MatchOption (form_fault result) (Unit {0})
        (λ told. items (λ p. p.left) next_declaration cursor.old ≡ Err told) }
    ensures memory { HidesNoFault result (items (λ p. p.left) next_declaration cursor.old) }
{
    match pass_table(cursor) {
        Ok(()) => FormFault::Memory,
        Err(fault) => fault,
    }
}

/// The declarations of a run, up to one that was read before, or to the end of their table; and
/// where that one is. So none of them was read before.
fn read_run<'a>(
    alloc: Global,
    cursor: &mut Cursor<'a>,
    starts: &Starts,
    room: &mut usize,
) -> Result<(Vec<Decl<'a>>, Option<Start>), FormFault>
    ensures run { IfOk result (λ found. IsRunAt starts.now cursor.old found.0.items found.1) }
    ensures apart { IfOk result (λ found. AreApart starts.now
        (map (λ declaration. declaration.offset) found.0.items)) }
{
    let mut declarations = Vec::new(alloc);
    loop {
        if let Some(start) = starts.get(cursor.at()) {
            return Ok((declarations, Some(start)));
        }
        let Some(declaration) = next_decl(cursor)? else {
            return Ok((declarations, None));
        };
        declarations.push(declaration.listed(alloc, room)?)?;
    }
}

/// The first declaration of a code in the table that begins at a start. It is looked for in each
/// run through which the table leads.
#[inline(always)]
fn find_in<'b, 'a>(runs: &'b [Run<'a>], start: Start, code: u64) -> Option<&'b Decl<'a>>
    requires tabled { AreTabled runs.now }
    requires within { start.index ≤ slice_index_or (sizes_of runs.now) start.run 0 }
    ensures { option_map (λ declaration. declaration_shown declaration.now) result
        ≡ declared (drop start.index (slice_index_or (tables_of runs.now) start.run [])) code }
{
    let mut start = start;
    loop {
        if start.run >= runs.len() {
            return None;
        }
        let run = &runs[start.run];
        if let Some(found) = run.find(start.index, code) {
            return Some(found);
        }
        let Some(rest) = run.rest() else {
            return None;
        };
        start = rest;
    }
}

/// The declarations that were read of a section. Contracts see the section, and the tables that
/// begin with each run of declarations, in the order in which they were read.
#[derive(Drop)]
pub struct AbbrevStore<'a> {
    section: &'a [u8],
    runs: Vec<Run<'a>>,
    /// Where the table begins that is at an offset.
    starts: Starts,
    /// How many attributes may still be listed: together as many as .debug_abbrev has bytes, so
    /// that memory stays in proportion where declarations begin inside one another.
    room: usize,
}

impl<'a> Model for AbbrevStore<'a> {
    ghost use Rattle.dw_forms.specs.Declaration.{declaration_shown};
    ghost use Rattle.dw_forms.specs.StoreInside.{sizes_of, tables_of, AreTabled};
    ghost use Rattle.dw_forms.specs.Store.{Read};
    ghost use Rattle.dw_forms.specs.StoreInside.{read_in, IsStored};

    ghost Value = { Read };

    ghost view = { read_in };

    ghost invariant = { IsStored };
}

impl<'a> AbbrevStore<'a> {
    /// Nothing of the section was read yet.
    pub fn new(alloc: Global, section: &'a [u8]) -> Self
        ensures { result.section ≡ section.now }
    {
        AbbrevStore {
            section,
            runs: Vec::new(alloc),
            starts: Starts::new(alloc),
            room: section.len(),
        }
    }

    /// The first declaration of a code in the table that begins at a start, where there is one.
    #[inline(always)]
    pub(crate) fn find(&self, start: Start, code: u64) -> Option<&Decl<'a>>
        requires { IsWithin self.now start }
        ensures { option_map (λ declaration. declaration_shown declaration.now) result
            ≡ declared (table_from self.now start) code }
    {
        find_in(&self.runs, start, code)
    }

    /// Where the table at an offset begins. What wasn't read of it yet is read, and the tables that
    /// were read before begin where they began. An offset past the section's end is `End`. `Memory`
    /// comes only where an allocation was refused, the table can be read, and no declaration at the
    /// offset was read before. A table that has declarations is read once.
    #[tactic(auto, unfolding(dw_model::specs::Abbrev::abbreviations))]
    pub fn start(&mut self, alloc: Global, offset: u64) -> Result<Start, FormFault>
        ensures section { self.new.section ≡ self.old.section }
        ensures kept { IsKept self.old self.new }
        ensures found { IfOk result (λ start. HasTable self.new offset start) }
        ensures known { HasRead self.old offset → IsOk result }
        ensures stays { (other : ℕ) → HasRead self.old other → HasRead self.new other }
        ensures read { IfOk result (λ start. HasRead self.new offset ⊎ (table_from self.new start ≡ [])) }
        ensures fault { IfErr result (λ fault. MatchOption (form_fault fault) (Unit {0})
            (λ told. abbreviations self.old.section offset ≡ Err told)) }
        ensures memory { IfErr result (λ fault. HidesNoFault fault (abbreviations self.old.section offset)) }
    {
        if offset > self.section.len() as u64 {
            return Err(FormFault::End);
        }
        let offset = offset as usize;
        if let Some(start) = self.starts.get(offset) {
            return Ok(start);
        }
        let mut cursor = Cursor::new(self.section);
        let Some(_) = cursor.take(offset) else {
            return Err(FormFault::End);
        };
        let read = read_run(alloc, &mut cursor.fork(), &self.starts, &mut self.room);
        let Ok((declarations, rest)) = read else {
            return Err(fault_in_table(&mut cursor));
        };
        let run = self.runs.len();
        let read = Run::new(alloc, declarations, rest)?;
        self.runs.push(read)?;
        let Ok(()) = self.starts.add(&self.runs[run], run) else {
            self.runs.truncate(run);
            return Err(FormFault::Memory);
        };
        Ok(Start { run, index: 0 })
    }

    /// How many declarations are kept: those of all runs, among which are those of each table. No
    /// two begin at one offset, so there are at most as many as the section has bytes, whichever
    /// tables were read, in whatever order, and whichever allocation was refused.
    pub fn kept(&self) -> usize
        ensures counted { result ≡ sum self.now.sizes }
        ensures tables { (start : Start) → length (table_from self.now start) ≤ result }
        ensures bound { result ≤ length self.now.section }
    {
        self.starts.len()
    }
}
