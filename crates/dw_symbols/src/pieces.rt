//! The pieces of a span, found in order of address: those that touch and have one location are one.

ghost use Rattle.std.specs.Prelude.{◌≡◌, ◌≤◌, ◌<◌, None, IsOk, OnOk, length, map};
ghost use Rattle.dw_model.specs.Pieces.{joins, with_piece};
ghost use Rattle.dw_symbols.specs.Answer.{piece_shown};
ghost use Rattle.dw_line.specs.Lines.{lines_shown};
ghost use Rattle.dw_symbols.specs.Paths.{path_in, ArePathsOf};
ghost use Rattle.dw_symbols.specs.Pieces.{with_path, with_pieces, AddsStretch, AddsRows};

use crate::answer::{Location, Piece};
use crate::early::PartPieces;
use crate::location::location_at;
use crate::paths::{KnownPath, copy_path, is_path, place_of};
use dw_line::{Lines, Stretch};
use dw_model::laws::law_of_more_pieces;
use std::alloc::{AllocError, Global};

/// Whether the next piece, with the path in a place, touches this one and has its location. Paths
/// are compared last: most neighbours have the same one.
fn joins(piece: &Piece, next: &Piece, paths: &[Option<KnownPath>], place: usize) -> bool
    requires { place < length paths.now }
    ensures { result ≡ joins (piece_shown piece.now) (with_path (path_in paths.now place) (piece_shown next.now)) }
{
    piece.end == next.begin
        && piece.location.line == next.location.line
        && piece.location.column == next.location.column
        && is_path(paths, place, &piece.location.path)
}

/// Adds a piece, with the path in a place, which begins where the others end or after it. The path
/// is copied where the piece joins none.
fn push_piece(
    alloc: Global,
    next: Piece,
    paths: &[Option<KnownPath>],
    place: usize,
    pieces: &mut Vec<Piece>,
) -> Result<(), AllocError>
    requires { place < length paths.now }
    ensures { OnOk result (map piece_shown pieces.new.items ≡ with_piece (map piece_shown pieces.old.items)
        (with_path (path_in paths.now place) (piece_shown next))) }
{
    if let Some(last) = pieces.last_mut() {
        if joins(last, &next, paths, place) {
            last.end = next.end;
            return Ok(());
        }
    }
    let Location { line, column, .. } = next.location;
    let path = copy_path(alloc, paths, place)?;
    pieces.push(Piece {
        begin: next.begin,
        end: next.end,
        location: Location { path, line, column },
    })?;
    Ok(())
}

/// Adds a stretch of a line table, where it has a row; where it has none, it can't be refused.
fn push_stretch(
    alloc: Global,
    lines: &Lines<'_>,
    stretch: Stretch,
    paths: &mut Vec<Option<KnownPath>>,
    pieces: &mut Vec<Piece>,
) -> Result<(), AllocError>
    requires { ArePathsOf (lines_shown lines.now) paths.old.items }
    ensures pieces { OnOk result (AddsStretch (lines_shown lines.now) stretch (map piece_shown pieces.old.items)
        (map piece_shown pieces.new.items)) }
    ensures paths { ArePathsOf (lines_shown lines.now) paths.new.items }
    ensures none { stretch.row ≡ None → IsOk result }
{
    law_of_more_pieces();
    let Some(row) = stretch.row else {
        return Ok(());
    };
    let place = place_of(alloc, lines, row.file, paths)?;
    let next = Piece {
        begin: stretch.begin,
        end: stretch.end,
        location: location_at(None, Some(row.line), Some(row.column)),
    };
    push_piece(alloc, next, paths, place, pieces)?;
    Ok(())
}

/// Adds the pieces of the addresses from `low` on and below `high`, by the line table of the unit
/// that covers them.
pub(crate) fn push_rows(
    alloc: Global,
    lines: &Lines<'_>,
    low: u64,
    high: u64,
    pieces: &mut Vec<Piece>,
) -> Result<(), AllocError>
    requires { low ≤ high }
    ensures { OnOk result (AddsRows (lines_shown lines.now) low high (map piece_shown pieces.old.items)
        (map piece_shown pieces.new.items)) }
{
    let mut walk = lines.walk(low, high);
    let mut paths = Vec::new(alloc);
    loop {
        let Some(stretch) = walk.next() else {
            return Ok(());
        };
        push_stretch(alloc, lines, stretch, &mut paths, pieces)?;
    }
}

/// Whether the next piece touches this one and has its location.
fn joins_found(piece: &Piece, next: &Piece) -> bool
    ensures { result ≡ joins (piece_shown piece.now) (piece_shown next.now) }
{
    piece.end == next.begin
        && piece.location.line == next.location.line
        && piece.location.column == next.location.column
        && piece.location.path == next.location.path
}

/// Adds a piece, which begins where the others end or after it.
fn push_found(next: Piece, pieces: &mut Vec<Piece>) -> Result<(), AllocError>
    ensures { OnOk result (map piece_shown pieces.new.items
        ≡ with_piece (map piece_shown pieces.old.items) (piece_shown next)) }
{
    if let Some(last) = pieces.last_mut() {
        if joins_found(last, &next) {
            last.end = next.end;
            return Ok(());
        }
    }
    pieces.push(next)?;
    Ok(())
}

/// Adds the pieces of a part, which begins where the others end or after it.
pub(crate) fn append(part: PartPieces, pieces: &mut Vec<Piece>) -> Result<(), AllocError>
    ensures { OnOk result (map piece_shown pieces.new.items
        ≡ with_pieces (map piece_shown pieces.old.items) (map piece_shown part.pieces.items)) }
{
    let mut left = part.pieces.into_iter();
    while let Some(piece) = left.next() {
        push_found(piece, pieces)?;
    }
    Ok(())
}
