//! Answers the addresses of a file, and keeps the units and the line tables that were used last.

ghost use Rattle.std.specs.Prelude.{◌≡◌, ◌+◌, ◌≤◌, IfOk, IsOk, is_ok, if◌then◌else◌};
ghost use Rattle.dw_model.specs.Answer as model;
ghost use Rattle.dw_model.specs.Pieces.{pieces};
ghost use Rattle.dw_symbols.specs.Answer.{answer_shown};
ghost use Rattle.dw_symbols.specs.Source.{file_in};
ghost use Rattle.dw_symbols.specs.Told.{means};

use crate::answer::Answer;
use crate::image::Image;
use crate::refusals::Refusals;
use crate::source::Source;
use crate::span::Span;
use crate::table_cache::KeptTables;
use crate::unit_cache::{Trees, functions_at};
use dw_ranges::ListIndexes;
use lru::LruCache;
use std::alloc::{AllocError, Global};
use std::marker::Model;
use std::num::NonZeroUsize;
use std::sync::Arc;
use ticket_core::{Query, QueryKind};

/// Answers the addresses of a file. Contracts see the file's bytes and how often `find_frames`, or
/// an answer for a pool, was refused memory: what was asked before, what was dropped since and what
/// memory refused changes no answer. Threads can each have one over the same image.
#[derive(Drop)]
pub struct Context<'b, 'a> {
    source: Source<'b, 'a>,
    alloc: Global,
    /// The functions of the units that were used last.
    trees: Trees<'a>,
    /// The indexes of range lists that are held by these functions.
    indexes: ListIndexes<'a>,
    /// The line tables that were used last. Units may name one table, which is kept once.
    tables: KeptTables<'a>,
    refusals: Refusals,
}

impl<'b, 'a> Model for Context<'b, 'a> {
    ghost use Rattle.dw_symbols.specs.ContextState.{ContextState, state_code};
    ghost use Rattle.dw_symbols.specs.Context.{state_of, IsKept};

    ghost Value = { ContextState };

    ghost coded = { state_code };

    ghost view = { state_of };

    ghost invariant = { IsKept };
}

impl<'b, 'a> Context<'b, 'a> {
    /// A context that keeps the functions of so many units, and line tables that together are no
    /// longer than .debug_line. Nothing of them is read yet.
    pub fn new(
        alloc: Global,
        image: &'b Image<'a>,
        capacity: NonZeroUsize,
    ) -> Result<Self, AllocError>
        ensures file { IfOk result (λ context. context.file ≡ image.now) }
        ensures refused { IfOk result (λ context. context.refused ≡ 0) }
    {
        Context::over(alloc, Source::Borrowed(image), capacity)
    }

    /// The same, over an image that it shares with others. So it borrows nothing but the bytes of
    /// the file, and the image is freed with the last context over it.
    pub fn sharing(
        alloc: Global,
        image: Arc<Image<'a>>,
        capacity: NonZeroUsize,
    ) -> Result<Self, AllocError>
        ensures file { IfOk result (λ context. context.file ≡ image.entry.value) }
        ensures refused { IfOk result (λ context. context.refused ≡ 0) }
    {
        Context::over(alloc, Source::Shared(image), capacity)
    }

    /// Another context over the same image. Nothing of its units is read yet.
    pub fn beside(&self, capacity: NonZeroUsize) -> Result<Self, AllocError>
        ensures file { IfOk result (λ context. context.file ≡ self.now.file) }
        ensures refused { IfOk result (λ context. context.refused ≡ 0) }
    {
        let source = self.source.again()?;
        Context::over(self.alloc, source, capacity)
    }

    /// A context over an image.
    fn over(
        alloc: Global,
        source: Source<'b, 'a>,
        capacity: NonZeroUsize,
    ) -> Result<Self, AllocError>
        ensures file { IfOk result (λ context. context.file ≡ file_in source.entry) }
        ensures refused { IfOk result (λ context. context.refused ≡ 0) }
    {
        let trees = LruCache::sparse(alloc, capacity)?;
        let indexes = ListIndexes::new(alloc, source.image().units().tables());
        let tables = KeptTables::new(alloc)?;
        Ok(Context {
            source,
            alloc,
            trees,
            indexes,
            tables,
            refusals: Refusals::new(),
        })
    }

    /// The bytes of the file.
    pub fn bytes(&self) -> &'a [u8]
        ensures { result.now ≡ self.now.file }
    {
        self.source.image().bytes()
    }

    /// Where an address comes from, by the line table of its unit alone: one frame without a name.
    pub fn find_location(&mut self, a: u64) -> Result<Answer<'a>, AllocError>
        ensures answer { IfOk result (λ answer. answer_shown answer ≡ model.location self.old.file a) }
        ensures state { self.new ≡ self.old }
    {
        let Some(unit) = self.source.image().unit_at(a) else {
            return Ok(Answer::NotCovered);
        };
        self.tables.frames(self.alloc, unit, &[], a)
    }

    /// All locations of the addresses from `low` on and below `high`, in pieces, by the rows of the
    /// units that answer them; or the fault of the first address that has one. It goes from one
    /// change to the next, so its work is in proportion to the rows and the ranges of units between
    /// `low` and `high`. It can't be refused where `low` isn't below `high`.
    pub fn find_location_range(&mut self, low: u64, high: u64) -> Result<Answer<'a>, AllocError>
        ensures answer { IfOk result (λ answer. answer_shown answer ≡ pieces self.old.file low high) }
        ensures empty { high ≤ low → IsOk result }
        ensures state { self.new ≡ self.old }
    {
        let image = self.source.image();
        self.tables.pieces(self.alloc, image, Span { low, high })
    }

    /// What an address means.
    fn look_up(&mut self, a: u64) -> Result<Answer<'a>, AllocError>
        ensures answer { IfOk result (λ answer. answer_shown answer ≡ model.answer self.old.file a) }
        ensures state { self.new ≡ self.old }
    {
        let Some(unit) = self.source.image().unit_at(a) else {
            return Ok(Answer::NotCovered);
        };
        match functions_at(&mut self.trees, &mut self.indexes, self.alloc, unit, a)? {
            Ok(functions) => self.tables.frames(self.alloc, unit, &functions, a),
            Err(code) => Ok(Answer::Fault {
                unit: unit.offset(),
                code,
            }),
        }
    }

    /// What a query means.
    fn answer_of(&mut self, query: Query) -> Result<Answer<'a>, AllocError>
        ensures answer { IfOk result (λ answer. answer_shown answer ≡ means self.old.file query) }
        ensures state { self.new ≡ self.old }
    {
        match query.kind() {
            QueryKind::Address(a) => self.look_up(a),
            QueryKind::Span(low, high) => self.find_location_range(low, high),
        }
    }

    /// What a query means. That it was refused memory is counted.
    pub(crate) fn find(&mut self, query: Query) -> Result<Answer<'a>, AllocError>
        ensures answer { IfOk result (λ answer. answer_shown answer ≡ means self.old.file query) }
        ensures file { self.new.file ≡ self.old.file }
        ensures refused { self.new.refused ≡ (if is_ok result then self.old.refused else self.old.refused + 1) }
    {
        let found = self.answer_of(query);
        if found.is_err() {
            self.refusals = self.refusals.then();
        }
        found
    }

    /// What an address means: its frames, innermost first, or why its unit can't be read.
    pub fn find_frames(&mut self, a: u64) -> Result<Answer<'a>, AllocError>
        ensures answer { IfOk result (λ answer. answer_shown answer ≡ model.answer self.old.file a) }
        ensures file { self.new.file ≡ self.old.file }
        ensures refused { self.new.refused ≡ (if is_ok result then self.old.refused else self.old.refused + 1) }
    {
        self.find(Query::address(a))
    }
}
