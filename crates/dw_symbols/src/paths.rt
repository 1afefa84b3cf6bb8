//! The paths of a line table that were found last: most stretches of a span have a file of one a
//! little before.

ghost use Rattle.std.specs.Prelude.{◌≡◌, ◌<◌, None, IfOk, IsOk, OnOk, length, option_map};
ghost use Rattle.dw_model.specs.Answer as model;
ghost use Rattle.dw_model.specs.Pieces.{is_same_path};
ghost use Rattle.dw_line.specs.Lines.{lines_shown};
ghost use Rattle.dw_symbols.specs.Paths.{file_path, path_in, ArePathsOf};

use dw_line::Lines;
use std::alloc::{AllocError, Global};

/// The path of a file, by the file's number.
#[derive(Debug, Drop)]
pub(crate) struct KnownPath {
    pub(crate) number: u64,
    pub(crate) path: Option<Vec<u8>>,
}

/// How many paths are kept at most: one for each remainder of a file's number by this.
const KEPT: u64 = 64;

/// Makes room for a path in a place.
fn make_room(paths: &mut Vec<Option<KnownPath>>, place: usize) -> Result<(), AllocError>
    requires { place < 64 }
    ensures room { OnOk result (place < length paths.new.items) }
    ensures known { (table : model.Lines) → ArePathsOf table paths.old.items → ArePathsOf table paths.new.items }
{
    while paths.len() <= place {
        paths.push(None)?;
    }
    Ok(())
}

/// The place of a file's path, which is found first where it isn't known.
pub(crate) fn place_of(
    alloc: Global,
    lines: &Lines<'_>,
    number: u64,
    paths: &mut Vec<Option<KnownPath>>,
) -> Result<usize, AllocError>
    requires { ArePathsOf (lines_shown lines.now) paths.old.items }
    ensures within { IfOk result (λ place. place < length paths.new.items) }
    ensures path { IfOk result (λ place. path_in paths.new.items place ≡ file_path (lines_shown lines.now) number) }
    ensures paths { ArePathsOf (lines_shown lines.now) paths.new.items }
{
    let place = (number % KEPT) as usize;
    make_room(paths, place)?;
    if let Some(known) = &paths[place] {
        if known.number == number {
            return Ok(place);
        }
    }
    let path = lines.path(alloc, number)?;
    paths[place] = Some(KnownPath { number, path });
    Ok(place)
}

/// The path in a place is this one.
pub(crate) fn is_path(paths: &[Option<KnownPath>], place: usize, other: &Option<Vec<u8>>) -> bool
    requires { place < length paths.now }
    ensures { result ≡ is_same_path (option_map (λ path. path.items) other.now) (path_in paths.now place) }
{
    match &paths[place] {
        Some(known) => *other == known.path,
        None => other.is_none(),
    }
}

/// A copy of the path in a place. It can't be refused where there is none.
pub(crate) fn copy_path(
    alloc: Global,
    paths: &[Option<KnownPath>],
    place: usize,
) -> Result<Option<Vec<u8>>, AllocError>
    requires { place < length paths.now }
    ensures path { IfOk result (λ copy. option_map (λ path. path.items) copy ≡ path_in paths.now place) }
    ensures none { path_in paths.now place ≡ None → IsOk result }
{
    let Some(known) = &paths[place] else {
        return Ok(None);
    };
    let Some(path) = &known.path else {
        return Ok(None);
    };
    let mut copy = Vec::with_capacity(alloc, path.len())?;
    copy.extend_from_slice(path)?;
    Ok(Some(copy))
}
