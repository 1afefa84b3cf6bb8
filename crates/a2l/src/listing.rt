//! Listing the units of a file.

ghost use Rattle.std.specs.Prelude.{◌≡◌, ◌<◌, None, OnOk, OnErr, IfErr};
ghost use Rattle.std.specs.Io.KnownBytes.{append_known};
ghost use Rattle.dw_model.specs.Refusal.{listing_refusal};
ghost use Rattle.dw_model.specs.Output.{listing};
ghost use Rattle.a2l_lines.specs.Ends.{WritesBeginning};
ghost use Rattle.a2l.specs.Fault.{FailsOver, IsRefused};

use crate::fault::Fault;
use a2l_lines::{Sink, list_units};
use dw_elf::Elf;
use dw_units::Units;
use std::alloc::Global;

/// Lists the units of a file.
pub fn list_file<W: Sink>(alloc: Global, writer: &mut W, file: &[u8]) -> Result<(), Fault>
    ensures listed { OnOk result (listing_refusal file.now ≡ None) }
    ensures written { OnOk result (W.told writer.new ≡ append_known (W.told writer.old) (listing file.now)) }
    ensures beginning { OnErr result (WritesBeginning (W.told writer.old) (W.told writer.new) (listing file.now)) }
    ensures fault { IfErr result
        (FailsOver (listing_refusal file.now) ⊥ (W.failures writer.old < W.failures writer.new)) }
    ensures refused { IfErr result (λ fault. IsRefused fault → writer.new ≡ writer.old) }
{
    let elf = Elf::open(file)?;
    let units = Units::read(alloc, &elf)?;
    list_units(alloc, writer, &units)?;
    Ok(())
}
