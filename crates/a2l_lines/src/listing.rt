//! The lines of `--units`.

ghost use Rattle.std.specs.Prelude.{◌≡◌, ◌≢◌, ◌++◌, ◌<◌, Err, OnOk, OnErr, IfOk, IsErrOf, string_bytes};
ghost use Rattle.dw_model.specs.Output.{unit_line};
ghost use Rattle.dw_units.specs.Unit.{unit_shown};
ghost use Rattle.a2l_lines.specs.Listing.{Lists, ListsBeginning, lines_in};

use crate::fault::RunFault;
use crate::output::write_all;
use crate::streams::{Failed, Sink};
use dw_units::{Unit, Units};
use std::alloc::{AllocError, Global};

/// Adds the line of a unit to a text.
fn push_line(text: &mut String, unit: &Unit<'_>) -> Result<(), AllocError>
    ensures { OnOk result (string_bytes text.new ≡ string_bytes text.old ++ unit_line (unit_shown unit.now)) }
{
    let offset = unit.offset;
    let version = unit.version;
    let kind = unit.kind;
    write!(text, "0x{offset:x} version {version} {kind}\n")
}

/// The lines of `--units`.
fn listing(alloc: Global, units: &Units<'_>) -> Result<String, AllocError>
    ensures { IfOk result (λ text. string_bytes text ≡ lines_in units.now) }
{
    let mut text = String::new(alloc);
    for i in 0..units.len() {
        push_line(&mut text, units.unit(i))?;
    }
    Ok(text)
}

/// Writes the lines of `--units`: one for each unit, in order of offset.
///
/// After an error a beginning of them was written.
pub fn list_units<W: Sink>(alloc: Global, writer: &mut W, units: &Units<'_>) -> Result<(), RunFault>
    ensures written { OnOk result (Lists units.now (W.told writer.old) (W.told writer.new)) }
    ensures beginning { OnErr result (ListsBeginning units.now (W.told writer.old) (W.told writer.new)) }
    ensures write { IsErrOf result RunFault.Write → W.failures writer.old < W.failures writer.new }
    ensures memory { IsErrOf result RunFault.Memory → writer.new ≡ writer.old }
    ensures read { result ≢ Err RunFault.Read }
{
    let text = listing(alloc, units)?;
    match write_all(writer, text.as_bytes()) {
        Ok(()) => Ok(()),
        Err(Failed) => Err(RunFault::Write),
    }
}
