//! What a unit answers, by the line table that it names.

ghost use Rattle.std.specs.Prelude.{◌≡◌, ◌≤◌, map, IfOk};
ghost use Rattle.dw_model.specs.Section.{Sections};
ghost use Rattle.dw_model.specs.Unit.{DwarfUnit};
ghost use Rattle.dw_frames.specs.Told.{described_shown};
ghost use Rattle.dw_units.specs.OpenUnit.{sections_of, unit_of};
ghost use Rattle.dw_symbols.specs.Answer.{answer_shown, piece_shown};
ghost use Rattle.dw_symbols.specs.Frames.{answer_told};
ghost use Rattle.dw_symbols.specs.UnitParts.{HasLines, IsNamed};
ghost use Rattle.dw_symbols.specs.Span.{AddsUnit};

use crate::answer::{Answer, Piece, UnitFault};
use crate::frames::frames_of;
use crate::location::row_location;
use crate::pieces::push_rows;
use crate::span::Span;
use crate::unit_parts::{UnitLines, turn};
use dw_frames::Described;
use dw_model::laws::law_of_more_pieces;
use dw_units::OpenUnit;
use std::alloc::{AllocError, Global};

/// What an address means, by the functions at it and the line table of its unit.
pub(crate) fn frames_by<'a>(
    lines: &mut UnitLines<'a>,
    alloc: Global,
    unit: OpenUnit<'_, 'a>,
    functions: &[Described<'a>],
    a: u64,
) -> Result<Answer<'a>, AllocError>
    requires named { IsNamed (sections_of unit) (unit_of unit) lines.old }
    ensures named { IsNamed (sections_of unit.entry) (unit_of unit.entry) lines.new }
    ensures answer { IfOk result (λ answer. answer_shown answer
        ≡ answer_told (sections_of unit.entry) (unit_of unit.entry) (map described_shown functions.now) a) }
{
    turn(lines, unit);
    let unit = unit.unit().offset;
    let table = match lines {
        Ok(table) => table,
        Err(code) => return Ok(Answer::Fault { unit, code: *code }),
    };
    let location = row_location(alloc, table, a)?;
    let frames = frames_of(alloc, table, functions, location)?;
    Ok(Answer::Found { unit, frames })
}

/// Adds the pieces of a span by the line table of the unit that answers all of its addresses; or
/// returns why that can't be read.
fn push_lines(
    alloc: Global,
    lines: &UnitLines<'_>,
    span: Span,
    pieces: &mut Vec<Piece>,
) -> Result<Option<UnitFault>, AllocError>
    requires { span.low ≤ span.high }
    ensures { IfOk result (λ fault. (s : Sections) (unit : DwarfUnit) → HasLines s unit lines.now
        → AddsUnit s unit span fault (map piece_shown pieces.old.items) (map piece_shown pieces.new.items)) }
{
    law_of_more_pieces();
    let table = match lines {
        Ok(table) => table,
        Err(code) => return Ok(Some(*code)),
    };
    let Some(table) = table else {
        return Ok(None);
    };
    push_rows(alloc, table, span.low, span.high, pieces)?;
    Ok(None)
}

/// The same, by the line table as any unit sees it.
pub(crate) fn push_pieces_by<'a>(
    lines: &mut UnitLines<'a>,
    alloc: Global,
    unit: OpenUnit<'_, 'a>,
    span: Span,
    pieces: &mut Vec<Piece>,
) -> Result<Option<UnitFault>, AllocError>
    requires order { span.low ≤ span.high }
    requires named { IsNamed (sections_of unit) (unit_of unit) lines.old }
    ensures named { IsNamed (sections_of unit.entry) (unit_of unit.entry) lines.new }
    ensures pieces { IfOk result (λ fault. AddsUnit (sections_of unit.entry) (unit_of unit.entry) span fault
        (map piece_shown pieces.old.items) (map piece_shown pieces.new.items)) }
{
    turn(lines, unit);
    push_lines(alloc, lines, span, pieces)
}
