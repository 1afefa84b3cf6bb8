//! Running a line program for the first time, by section 6.2.5 of DWARF 5.

ghost use Rattle.std.specs.Prelude.{◌≡◌};
ghost use Rattle.dw_line.specs.Header.{header_shown};
ghost use Rattle.dw_line.specs.Program.{RecordsProgram};

use crate::checkpoints::Checkpoints;
use crate::fault::LineFault;
use crate::header::Header;
use crate::machine::next_row;
use crate::registers::Registers;
use dw_bytes::Cursor;
use std::alloc::Global;

/// Runs a header's program to its end. Nothing is kept of its rows but the checkpoints of used
/// sequences.
pub(crate) fn run_program(alloc: Global, header: &Header<'_>) -> Result<Checkpoints, LineFault>
    ensures { RecordsProgram (header_shown header.now) result }
{
    let mut recorded = Checkpoints::new(alloc);
    let mut cursor = Cursor::new(header.program);
    let mut registers = Registers::initial();
    loop {
        let Some(appended) = next_row(&mut cursor, header, registers)? else {
            recorded.finish();
            return Ok(recorded);
        };
        recorded.record(appended, cursor.at())?;
        registers = appended.registers_behind();
    }
}
