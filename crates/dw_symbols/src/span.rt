//! Spans of addresses, and their pieces by all units that answer them.

ghost use Rattle.std.specs.Prelude.{◌≡◌, ◌≤◌, IfOk, IfSome, IsOk, OnOk, map};
ghost use Rattle.std.specs.List.{All};
ghost use Rattle.dw_model.specs.Section.{sections};
ghost use Rattle.dw_model.specs.Pieces.{pieces};

use crate::answer::{Answer, Piece, UnitFault};
use crate::early::{Early, PartPieces, most_parts};
use crate::image::Image;
use crate::image_unit::ImageUnit;
use crate::pieces::append;
use crate::table_cache::KeptTables;
use crate::unit_walk::Part;
use dw_model::laws::{law_of_more_pieces, law_of_pieces};
use std::alloc::{AllocError, Global};

/// The addresses from `low` on and below `high`.
#[derive(Clone, Copy, Debug)]
pub(crate) struct Span {
    pub(crate) low: u64,
    pub(crate) high: u64,
}

/// The room for pieces that wait for their turn, in bytes, whatever the size of the file.
const ROOM: usize = 10 << 20;

/// The room for pieces of a file that wait for their turn, in bytes. With 24 for each byte of the
/// file, the peak of a span was measured below 64 for each.
fn room_in(image: &Image<'_>) -> usize {
    image.bytes().len().saturating_mul(24).saturating_add(ROOM)
}

impl<'a> KeptTables<'a> {
    ghost use Rattle.dw_symbols.specs.Answer.{answer_shown, piece_shown};
    ghost use Rattle.dw_symbols.specs.Kept.{AreTables};
    ghost use Rattle.dw_symbols.specs.ImageUnit.{sections_in, unit_in};
    ghost use Rattle.dw_symbols.specs.Parts.{AreFirstParts, AreFound, IsPart};
    ghost use Rattle.dw_symbols.specs.Span.{AddsFirst, AddsPart, ArePiecesBy};

    /// How many parts of a span are found at one time: one as long as all tables are kept, and as
    /// many as there is room for once one was dropped.
    fn most_parts(&self, image: &Image<'a>) -> usize {
        if self.has_dropped() {
            return most_parts(room_in(image));
        }
        1
    }

    /// The pieces of a span, of which a unit answers all addresses; none where it can't.
    fn pieces_of(
        &mut self,
        alloc: Global,
        unit: ImageUnit<'_, 'a>,
        span: Span,
    ) -> Result<Option<PartPieces>, AllocError>
        requires kept { AreTables (sections_in unit).line self.old }
        requires order { span.low ≤ span.high }
        ensures kept { AreTables (sections_in unit.entry).line self.new }
        ensures pieces { IfOk result (λ found. IfSome found (λ part.
            ArePiecesBy (sections_in unit.entry) (unit_in unit.entry) span (map piece_shown part.pieces.items))) }
    {
        let mut pieces = Vec::with_capacity(alloc, 1)?;
        match self.push_pieces(alloc, unit, span, &mut pieces)? {
            Some(_) => Ok(None),
            None => Ok(Some(PartPieces { pieces })),
        }
    }

    /// Finds pieces before their turn, of the parts after one that are of its unit, since the line
    /// table is at hand.
    fn look_ahead(
        &mut self,
        alloc: Global,
        image: &Image<'a>,
        parts: &[Part<'_, 'a>],
        from: usize,
        early: &mut Early,
    ) -> Result<(), AllocError>
        requires kept { AreTables (sections image.now).line self.old }
        requires parts { All (IsPart image.now) parts.now }
        requires found { AreFound image.now parts.now early.old }
        ensures kept { AreTables (sections image.now).line self.new }
        ensures found { OnOk result (AreFound image.now parts.now early.new) }
    {
        let mut i = from;
        while let Some(next) = early.follower(i) {
            if next >= parts.len() {
                break;
            }
            let part = parts[next];
            let Some(unit) = part.unit else {
                break;
            };
            if let Some(found) = self.pieces_of(alloc, unit, part.span)? {
                early.put(next, found)?;
            }
            i = next;
        }
        Ok(())
    }

    /// Adds the pieces of a part; or returns its unit, and why that can't answer it.
    fn push_part(
        &mut self,
        alloc: Global,
        image: &Image<'a>,
        part: Part<'_, 'a>,
        pieces: &mut Vec<Piece>,
    ) -> Result<Option<(u64, UnitFault)>, AllocError>
        requires kept { AreTables (sections image.now).line self.old }
        requires part { IsPart image.now part }
        ensures kept { AreTables (sections image.now).line self.new }
        ensures pieces { IfOk result (λ fault. AddsPart (sections image.now) part.entry.span fault
            (map piece_shown pieces.old.items) (map piece_shown pieces.new.items)) }
    {
        law_of_more_pieces();
        let Some(unit) = part.unit else {
            return Ok(None);
        };
        match self.push_pieces(alloc, unit, part.span, pieces)? {
            Some(code) => Ok(Some((unit.offset(), code))),
            None => Ok(None),
        }
    }

    /// Adds the pieces of the first parts of a span, and returns where they end; or the unit that
    /// can't answer them, and why.
    fn push_parts(
        &mut self,
        alloc: Global,
        image: &Image<'a>,
        span: Span,
        parts: &[Part<'_, 'a>],
        pieces: &mut Vec<Piece>,
    ) -> Result<Result<u64, (u64, UnitFault)>, AllocError>
        requires kept { AreTables (sections image.now).line self.old }
        requires parts { AreFirstParts image.now span parts.now }
        ensures kept { AreTables (sections image.now).line self.new }
        ensures pieces { IfOk result (λ end. AddsFirst (sections image.now) span end
            (map piece_shown pieces.old.items) (map piece_shown pieces.new.items)) }
    {
        law_of_more_pieces();
        let units = image.unit_count();
        let mut early = Early::new(alloc, room_in(image), units, parts)?;
        let mut at = span.low;
        for i in 0..parts.len() {
            let part = parts[i];
            if let Some(known) = early.take(i) {
                append(known, pieces)?;
            } else {
                if let Some(fault) = self.push_part(alloc, image, part, pieces)? {
                    return Ok(Err(fault));
                }
                self.look_ahead(alloc, image, parts, i, &mut early)?;
            }
            at = part.span.high;
        }
        Ok(Ok(at))
    }

    /// All pieces of the addresses from `low` on and below `high`, or the fault of the first
    /// address that has one.
    pub(crate) fn pieces(
        &mut self,
        alloc: Global,
        image: &Image<'a>,
        span: Span,
    ) -> Result<Answer<'a>, AllocError>
        requires { AreTables (sections image.now).line self.old }
        ensures kept { AreTables (sections image.now).line self.new }
        ensures answer { IfOk result (λ answer. answer_shown answer ≡ pieces image.now span.low span.high) }
        ensures empty { span.high ≤ span.low → IsOk result }
    {
        law_of_pieces();
        let mut pieces = Vec::new(alloc);
        let Span { low, high } = span;
        if low >= high {
            return Ok(Answer::Pieces(pieces));
        }
        let mut units = image.walk(alloc)?;
        let mut parts = Vec::new(alloc);
        let mut at = low;
        while at < high {
            let left = Span { low: at, high };
            units.find_parts(left, self.most_parts(image), &mut parts)?;
            match self.push_parts(alloc, image, left, &parts, &mut pieces)? {
                Ok(end) => at = end,
                Err((unit, code)) => return Ok(Answer::Fault { unit, code }),
            }
        }
        Ok(Answer::Pieces(pieces))
    }
}
