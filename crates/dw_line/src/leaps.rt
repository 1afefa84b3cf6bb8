//! Long ways of a line program without a row, which are run once alone.

ghost use Rattle.std.specs.Prelude.{◌≡◌, ◌≤◌, Some, IfSome, IfOk, drop, length, nat_lt};
ghost use Rattle.dw_line.specs.Header.{header_shown};
ghost use Rattle.dw_line.specs.Leaps.{AreLeaps, FewLeaps, LeadsTo};

use crate::checkpoints::{Checkpoint, ROWS_APART};
use crate::header::Header;
use crate::machine::{Appended, next_row};
use crate::registers::Registers;
use dw_bytes::Cursor;
use std::alloc::{AllocError, Global};

/// How many bytes of the program lie at most between two rows that are run again.
const BYTES_APART: usize = 64;

/// A way of the machine to the next row: where it begins, the row, and how many bytes of the
/// program the machine has passed after it.
#[derive(Clone, Copy, Debug)]
pub(crate) struct Leap {
    pub(crate) from: Checkpoint,
    pub(crate) next: Appended,
    pub(crate) place: usize,
}

/// Whether there are so many bytes from a checkpoint to the next, or to the program's end, that
/// some way may be long.
fn have_long_way(checkpoints: &[Checkpoint], end: usize) -> bool {
    let mut last = 0;
    for checkpoint in checkpoints {
        if checkpoint.place.saturating_sub(last) > ROWS_APART * BYTES_APART {
            return true;
        }
        last = checkpoint.place;
    }
    end.saturating_sub(last) > ROWS_APART * BYTES_APART
}

/// The long ways of a header's program, if its checkpoints lie far apart: else none is needed.
pub(crate) fn long_ways(
    alloc: Global,
    header: &Header<'_>,
    checkpoints: &[Checkpoint],
) -> Result<Vec<Leap>, AllocError>
    ensures { IfOk result (λ leaps. FewLeaps (header_shown header.now) (length header.now.program.now) leaps.items) }
{
    let mut leaps = Vec::new(alloc);
    if !have_long_way(checkpoints, header.program.len()) {
        return Ok(leaps);
    }
    let mut cursor = Cursor::new(header.program);
    let mut registers = Registers::initial();
    loop {
        let place = cursor.at();
        let from = Checkpoint { registers, place };
        let Ok(Some(next)) = next_row(&mut cursor, header, registers) else {
            return Ok(leaps);
        };
        let place = cursor.at();
        if place.saturating_sub(from.place) > BYTES_APART {
            leaps.push(Leap { from, next, place })?;
        }
        registers = next.registers_behind();
    }
}

/// A cursor past the first `place` bytes of a program, where they are there.
pub(crate) fn cursor_at<'a>(program: &'a [u8], place: usize) -> Option<Cursor<'a>>
    ensures { place ≤ length program.now → result ≡ Some (record { at = place; left = drop place program.now }) }
{
    let mut cursor = Cursor::new(program);
    let _passed = cursor.take(place)?;
    Some(cursor)
}

/// The row at the end of a long way from here, and the place after it, if a long way begins here.
pub(crate) fn row_behind<'a>(
    header: &Header<'a>,
    leaps: &[Leap],
    here: Checkpoint,
) -> Option<(Appended, Cursor<'a>)>
    requires { AreLeaps (header_shown header.now) leaps.now }
    ensures { IfSome result (LeadsTo (header_shown header.now) here) }
{
    let next = leaps.partition_point(
        |leap: &Leap| -> bool
            ensures { result ≡ nat_lt leap.now.from.place here.place }
        { leap.from.place < here.place },
    );
    let leap = leaps.get(next)?;
    if leap.from != here {
        return None;
    }
    let behind = cursor_at(header.program, leap.place)?;
    Some((leap.next, behind))
}
