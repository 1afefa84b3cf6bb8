//! The row of an address in a used sequence: rows are run again from one of its checkpoints, or
//! run on from the row after the one that was found last.

ghost use Rattle.std.specs.Prelude.{◌≡◌, ◌≤◌, ◌<◌, ◌+◌, nat_le, option_copied};
ghost use Rattle.dw_line.specs.Header.{header_shown};
ghost use Rattle.dw_line.specs.Leaps.{AreLeaps};
ghost use Rattle.dw_line.specs.Machine.{IsIn, RunsToNext, state_at};
ghost use Rattle.dw_line.specs.Reached.{told_of, reaches, last_in, FindsFrom, FindsAmong, FindsOnward};

use crate::checkpoints::{Checkpoint, ROWS_APART};
use crate::fault::LineFault;
use crate::header::Header;
use crate::leaps::{Leap, cursor_at, row_behind};
use crate::machine::{Appended, next_row};
use crate::registers::Registers;
use crate::rows::Row;
use dw_bytes::{Cursor, Steps};
use std::sync::ledger::Ledger;

/// A row that was found.
#[derive(Clone, Copy, Debug)]
pub(crate) struct Reached {
    /// The row.
    pub(crate) row: Registers,
    /// The row after it, from which later ones are run on.
    pub(crate) next: Checkpoint,
    /// The index, in its sequence, of the checkpoint after the one from which the row was found.
    pub(crate) next_checkpoint: usize,
}

impl Reached {
    /// The row, as a caller sees it.
    pub(crate) fn told(self) -> Row
        ensures { result ≡ told_of self }
    {
        let Registers {
            file,
            line,
            column,
            ..
        } = self.row;
        Row { file, line, column }
    }

    /// The address lies at the row or after it, and before the next checkpoint of its sequence, if
    /// there is one.
    fn reaches(&self, checkpoints: &[Checkpoint], address: u64) -> bool
        ensures { result ≡ reaches self.now checkpoints.now address }
    {
        if address < self.row.address {
            return false;
        }
        match checkpoints.get(self.next_checkpoint) {
            Some(next) => address < next.registers.address,
            None => true,
        }
    }
}

/// The row that was found last, in the used sequence with this number.
#[derive(Clone, Copy, Debug)]
pub(crate) struct Last {
    pub(crate) number: usize,
    pub(crate) reached: Reached,
}

/// The row that was found last, if it is one of the sequence with this number.
pub(crate) fn last_in(last: &Option<Last>, number: usize) -> Option<&Reached>
    ensures { option_copied result ≡ last_in number last.now }
{
    match last {
        Some(last) if last.number == number => Some(&last.reached),
        _ => None,
    }
}

/// Runs the machine to its next row, which is counted. A long way isn't run again.
#[inline(always)]
fn next_counted<'a, L: Ledger>(
    cursor: &mut Cursor<'a>,
    header: &Header<'a>,
    leaps: &[Leap],
    registers: Registers,
    steps: &mut Steps<L>,
) -> Result<Option<Appended>, LineFault>
    requires { AreLeaps (header_shown header.now) leaps.now }
    ensures row { IsIn (header_shown header.now) cursor.old
        → RunsToNext (header_shown header.now) (state_at registers cursor.old) result cursor.new }
    ensures counted { steps.new ≡ steps.old + 1 }
{
    steps.tick();
    if leaps.len() > 0 {
        let place = cursor.at();
        if let Some((appended, behind)) = row_behind(
            header,
            leaps,
            Checkpoint { registers, place },
        ) {
            *cursor = behind;
            return Ok(Some(appended));
        }
    }
    next_row(cursor, header, registers)
}

/// The row of an address that isn't below the address of a row: the last one before the first that
/// is above the address. At most as many rows are run again as lie from one checkpoint to the next.
/// `next_checkpoint` is the index of the checkpoint after the row. It is inlined, so that a walk
/// keeps the registers of the machine in those of the processor.
#[inline(always)]
fn row_from<L: Ledger>(
    header: &Header<'_>,
    leaps: &[Leap],
    row: Checkpoint,
    next_checkpoint: usize,
    address: u64,
    steps: &mut Steps<L>,
) -> Option<Reached>
    requires { AreLeaps (header_shown header.now) leaps.now }
    ensures row { FindsFrom (header_shown header.now) row next_checkpoint address result }
    ensures counted { steps.new ≤ steps.old + 64 }
{
    let Some(mut cursor) = cursor_at(header.program, row.place) else {
        return None;
    };
    let mut last = row.registers;
    for _ in 0..ROWS_APART {
        let Ok(found) = next_counted(&mut cursor, header, leaps, last, steps) else {
            return None;
        };
        let Some(appended) = found else {
            return None;
        };
        let registers = appended.registers;
        if registers.address > address {
            let place = cursor.at();
            return Some(Reached {
                row: last,
                next: Checkpoint { registers, place },
                next_checkpoint,
            });
        }
        if appended.ends {
            return None;
        }
        last = registers;
    }
    None
}

/// The row of an address below the end of a used sequence with these checkpoints, which are
/// searched by halves.
#[inline(never)]
pub(crate) fn row_in_sequence<L: Ledger>(
    header: &Header<'_>,
    leaps: &[Leap],
    checkpoints: &[Checkpoint],
    address: u64,
    steps: &mut Steps<L>,
) -> Option<Reached>
    requires { AreLeaps (header_shown header.now) leaps.now }
    ensures row { FindsAmong (header_shown header.now) checkpoints.now address result }
    ensures counted { steps.new ≤ steps.old + 64 }
{
    let next = checkpoints.partition_point(
        |checkpoint: &Checkpoint| -> bool
            ensures { result ≡ nat_le checkpoint.now.registers.address address }
        { checkpoint.registers.address <= address },
    );
    if next == 0 {
        return None;
    }
    row_from(header, leaps, checkpoints[next - 1], next, address, steps)
}

/// The same as `row_in_sequence`, where a row of the sequence may have been found before: if the
/// address lies at that row or after it, and before the next checkpoint, rows are run on from the
/// one after it. So no row is run twice.
pub(crate) fn row_onward<L: Ledger>(
    header: &Header<'_>,
    leaps: &[Leap],
    checkpoints: &[Checkpoint],
    last: Option<&Reached>,
    address: u64,
    steps: &mut Steps<L>,
) -> Option<Reached>
    requires { AreLeaps (header_shown header.now) leaps.now }
    ensures row { FindsOnward (header_shown header.now) checkpoints.now
        (option_copied last.entry) address result }
    ensures counted { steps.new ≤ steps.old + 64 }
{
    let Some(last) = last else {
        return row_in_sequence(header, leaps, checkpoints, address, steps);
    };
    if !last.reaches(checkpoints, address) {
        return row_in_sequence(header, leaps, checkpoints, address, steps);
    }
    if address < last.next.registers.address {
        return Some(*last);
    }
    row_from(
        header,
        leaps,
        last.next,
        last.next_checkpoint,
        address,
        steps,
    )
}
