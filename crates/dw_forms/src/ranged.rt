//! Which declarations tell that entries may have ranges, by section 2.17 of DWARF 5.

ghost use Rattle.std.specs.Prelude.{◌≡◌, is_some};
ghost use Rattle.dw_forms.specs.Named.{first_named};
ghost use Rattle.dw_forms.specs.Ranged as model;

use crate::pairs::Specs;
use dw_model::dwarf::{DW_AT_high_pc, DW_AT_low_pc, DW_AT_ranges};

/// An attribute of a name is declared.
fn is_declared(specs: &Specs<'_>, name: u64) -> bool
    ensures { result ≡ is_some (first_named name specs.now) }
{
    let mut left = specs.fork();
    while let Some(spec) = left.take_first() {
        if spec.name == name {
            return true;
        }
    }
    false
}

/// An entry with these attributes may have ranges.
pub(crate) fn are_ranged(specs: &Specs<'_>) -> bool
    ensures { result ≡ model.may_have_ranges specs.now }
{
    is_declared(specs, DW_AT_ranges)
        || (is_declared(specs, DW_AT_low_pc) && is_declared(specs, DW_AT_high_pc))
}
