//! Where in the source an address comes from.

ghost use Rattle.std.specs.Prelude.{◌≡◌, IfOk, None, option_and_then, option_map};
ghost use Rattle.dw_model.specs.Answer as model;
ghost use Rattle.dw_line.specs.Lines.{lines_shown};
ghost use Rattle.dw_symbols.specs.Answer.{location_shown};

use crate::answer::Location;
use dw_line::Lines;
use std::alloc::{AllocError, Global};

/// A location of which nothing is known.
fn nowhere() -> Location
    ensures { location_shown result ≡ model.row_location None None }
{
    Location {
        path: None,
        line: None,
        column: None,
    }
}

/// Line 0 is no line, and without a line no column is told.
pub(crate) fn location_at(path: Option<Vec<u8>>, line: Option<u64>, column: Option<u64>) -> Location
    ensures { location_shown result ≡ model.location_at (option_map (λ path. path.items) path) line column }
{
    match line {
        None | Some(0) => Location {
            path,
            line: None,
            column: None,
        },
        Some(line) => Location {
            path,
            line: Some(line),
            column,
        },
    }
}

/// The path of a file of a unit's line table.
fn file_path(
    alloc: Global,
    lines: &Option<Lines<'_>>,
    n: u64,
) -> Result<Option<Vec<u8>>, AllocError>
    ensures { IfOk result (λ found. option_map (λ path. path.items) found
        ≡ model.file_path (option_map lines_shown lines.now) n) }
{
    match lines {
        Some(table) => table.path(alloc, n),
        None => Ok(None),
    }
}

/// The location of an address, by its row. The table is the same afterwards; it finds the row
/// sooner where addresses are asked for in order.
pub(crate) fn row_location(
    alloc: Global,
    lines: &mut Option<Lines<'_>>,
    a: u64,
) -> Result<Location, AllocError>
    ensures location { IfOk result (λ location. location_shown location
        ≡ model.row_location (option_map lines_shown lines.old) (model.row_at (option_map lines_shown lines.old) a)) }
    ensures table { lines.new ≡ lines.old }
{
    let Some(table) = lines else {
        return Ok(nowhere());
    };
    let Some(row) = table.row_in_order(a) else {
        return Ok(nowhere());
    };
    let path = table.path(alloc, row.file)?;
    Ok(location_at(path, Some(row.line), Some(row.column)))
}

/// The location of a call that was inlined, by the numbers that its entry tells.
pub(crate) fn call_location(
    alloc: Global,
    lines: &Option<Lines<'_>>,
    file: Option<u64>,
    line: Option<u64>,
    column: Option<u64>,
) -> Result<Location, AllocError>
    ensures { IfOk result (λ location. location_shown location
        ≡ model.location_at (option_and_then (model.file_path (option_map lines_shown lines.now)) file) line column) }
{
    let path = match file {
        Some(n) => file_path(alloc, lines, n)?,
        None => None,
    };
    Ok(location_at(path, line, column))
}
