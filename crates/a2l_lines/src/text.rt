//! The lines that are written for inputs.

ghost use Rattle.std.specs.Prelude.{◌≡◌, ◌++◌, OnOk, codes, map, option_map, decimal};
ghost use Rattle.dw_model.specs.Output.{frame_lines, unknown_frame, shown, fault_line};
ghost use Rattle.dw_model.specs.Output.{sixteen_digits, span_text, query_line, piece_line, piece_lines};
ghost use Rattle.dw_symbols.specs.Answer.{frame_shown, code_shown, piece_shown};
ghost use Rattle.dw_symbols.specs.Told.{query_shown};
ghost use Rattle.a2l_lines.specs.Text.{options_shown, path_text, line_end, location_line, name_line};
ghost use Rattle.a2l_lines.specs.Text.{frame_text, frames_text, answer_text, head_text, query_text};

use crate::digits::sixteen_digits;
use crate::options::Options;
use dw_symbols::{Answer, Frame, Location, Piece, UnitFault};
use itoa::Buffer;
use std::alloc::{AllocError, Global};
use ticket_core::{Query, QueryKind};

/// Adds a number in decimal digits.
fn push_number(text: &mut Vec<u8>, number: u64) -> Result<(), AllocError>
    ensures { OnOk result (text.new.items ≡ text.old.items ++ decimal number) }
{
    let mut digits = Buffer::new();
    text.extend_from_slice(digits.format(number).as_bytes())
}

/// Adds the line of a location as it is after the path, and the end of the text's line.
fn push_line(text: &mut Vec<u8>, location: &Location) -> Result<(), AllocError>
    ensures { OnOk result (text.new.items ≡ text.old.items ++ line_end location.now) }
{
    let Some(line) = location.line else {
        return match location.path {
            Some(_) => text.extend_from_slice(b":?\n"),
            None => text.extend_from_slice(b":0\n"),
        };
    };
    text.extend_from_slice(b":")?;
    push_number(text, line)?;
    text.extend_from_slice(b"\n")
}

/// Adds the path of a source file, or `??`.
fn push_path(text: &mut Vec<u8>, path: &Option<Vec<u8>>) -> Result<(), AllocError>
    ensures { OnOk result (text.new.items ≡ text.old.items ++ path_text (option_map (λ path. path.items) path.now)) }
{
    match path {
        Some(path) => text.extend_from_slice(path),
        None => text.extend_from_slice(b"??"),
    }
}

/// Adds where an address comes from, and the end of the text's line: `PATH:LINE`, with `??` for a
/// path and `?` for a line that isn't known, and `??:0` where neither is.
fn push_location(text: &mut Vec<u8>, location: &Location) -> Result<(), AllocError>
    ensures { OnOk result (text.new.items ≡ text.old.items ++ location_line location.now) }
{
    push_path(text, &location.path)?;
    push_line(text, location)
}

/// Adds the name of a function, or `??`, and the end of the text's line.
fn push_name(text: &mut Vec<u8>, name: Option<&[u8]>) -> Result<(), AllocError>
    ensures { OnOk result (text.new.items ≡ text.old.items ++ name_line name.entry) }
{
    match name {
        Some(name) => text.extend_from_slice(name)?,
        None => text.extend_from_slice(b"??")?,
    }
    text.extend_from_slice(b"\n")
}

/// Adds the lines of a frame: with `-f` its name, and where in it the address comes from.
fn push_frame(
    text: &mut Vec<u8>,
    options: &Options<'_>,
    frame: &Frame<'_>,
) -> Result<(), AllocError>
    ensures { OnOk result (text.new.items ≡ text.old.items ++ frame_text options.now frame.now) }
{
    if options.functions {
        push_name(text, frame.name)?;
    }
    push_location(text, &frame.location)
}

/// Adds the lines of frames.
fn push_frames(
    text: &mut Vec<u8>,
    options: &Options<'_>,
    frames: &[Frame<'_>],
) -> Result<(), AllocError>
    ensures { OnOk result (text.new.items ≡ text.old.items ++ frames_text options.now frames.now) }
{
    for frame in frames {
        push_frame(text, options, frame)?;
    }
    Ok(())
}

/// The frames that are written: all with `-i`, else the innermost alone.
fn shown<'s, 'a>(options: &Options<'_>, frames: &'s [Frame<'a>]) -> &'s [Frame<'a>]
    ensures { map frame_shown result.now ≡ shown (options_shown options.now) (map frame_shown frames.now) }
{
    if options.inlines || frames.is_empty() {
        return frames;
    }
    frames.split_at(1).0
}

/// Adds the line of a unit that can't be read.
fn push_fault(
    alloc: Global,
    text: &mut Vec<u8>,
    unit: u64,
    code: UnitFault,
) -> Result<(), AllocError>
    ensures { OnOk result (text.new.items ≡ text.old.items ++ fault_line unit (code_shown code)) }
{
    let number = code.number();
    let line = format!(in alloc; "!unit 0x{unit:x} fault {number}\n")?;
    text.extend_from_slice(line.as_bytes())
}

/// Adds the lines of a frame of which nothing is known.
fn push_unknown(text: &mut Vec<u8>, options: &Options<'_>) -> Result<(), AllocError>
    ensures { OnOk result (text.new.items ≡ text.old.items ++ frame_lines (options_shown options.now) unknown_frame) }
{
    let location = Location {
        path: None,
        line: None,
        column: None,
    };
    push_frame(
        text,
        options,
        &Frame {
            name: None,
            location,
        },
    )
}

/// Adds `0x` and the 16 digits of an address.
fn push_address(text: &mut Vec<u8>, address: u64) -> Result<(), AllocError>
    ensures { OnOk result (text.new.items ≡ text.old.items ++ (codes "0x" ++ sixteen_digits address)) }
{
    text.extend_from_slice(b"0x")?;
    text.extend_from_slice(&sixteen_digits(address))
}

/// Adds the first address of a span, and its end.
fn push_span(text: &mut Vec<u8>, low: u64, high: u64) -> Result<(), AllocError>
    ensures { OnOk result (text.new.items ≡ text.old.items ++ span_text low high) }
{
    push_address(text, low)?;
    text.extend_from_slice(b"-")?;
    push_address(text, high)
}

/// Adds the line of a piece: the addresses and their location.
fn push_piece(text: &mut Vec<u8>, piece: &Piece) -> Result<(), AllocError>
    ensures { OnOk result (text.new.items ≡ text.old.items ++ piece_line (piece_shown piece.now)) }
{
    push_span(text, piece.begin, piece.end)?;
    text.extend_from_slice(b" ")?;
    push_location(text, &piece.location)
}

/// Adds the lines of pieces; of none the line of an address of which nothing is known.
fn push_pieces(text: &mut Vec<u8>, pieces: &[Piece]) -> Result<(), AllocError>
    ensures { OnOk result (text.new.items ≡ text.old.items ++ piece_lines (map piece_shown pieces.now)) }
{
    if pieces.is_empty() {
        return text.extend_from_slice(b"??:0\n");
    }
    for piece in pieces {
        push_piece(text, piece)?;
    }
    Ok(())
}

/// Adds the lines of an answer.
fn push_answer(
    alloc: Global,
    text: &mut Vec<u8>,
    options: &Options<'_>,
    answer: &Answer<'_>,
) -> Result<(), AllocError>
    ensures { OnOk result (text.new.items ≡ text.old.items ++ answer_text options.now answer.now) }
{
    match answer {
        Answer::NotCovered => push_unknown(text, options),
        Answer::Fault { unit, code } => push_fault(alloc, text, *unit, *code),
        Answer::Found { frames, .. } => push_frames(text, options, shown(options, frames)),
        Answer::Pieces(pieces) => push_pieces(text, pieces),
    }
}

/// Adds the line of a query itself.
fn push_query_line(text: &mut Vec<u8>, query: Query) -> Result<(), AllocError>
    ensures { OnOk result (text.new.items ≡ text.old.items ++ query_line (query_shown query)) }
{
    match query.kind() {
        QueryKind::Address(a) => push_address(text, a)?,
        QueryKind::Span(low, high) => push_span(text, low, high)?,
    }
    text.extend_from_slice(b"\n")
}

/// Adds the line of a query itself, with `-a`.
fn push_head(text: &mut Vec<u8>, options: &Options<'_>, query: Query) -> Result<(), AllocError>
    ensures { OnOk result (text.new.items ≡ text.old.items ++ head_text options.now query) }
{
    if !options.addresses {
        return Ok(());
    }
    push_query_line(text, query)
}

/// Adds the lines of a query: with `-a` the address or the span itself, then its answer.
pub fn push_query(
    alloc: Global,
    text: &mut Vec<u8>,
    options: &Options<'_>,
    query: Query,
    answer: &Answer<'_>,
) -> Result<(), AllocError>
    ensures { OnOk result (text.new.items ≡ text.old.items ++ query_text options.now query answer.now) }
{
    push_head(text, options, query)?;
    push_answer(alloc, text, options, answer)
}
