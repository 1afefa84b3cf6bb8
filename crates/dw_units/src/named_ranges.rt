//! What an entry says of its ranges, by section 2.17 of DWARF 5.

ghost use Rattle.std.specs.Prelude.{◌≡◌, option_map};
ghost use Rattle.dw_model.specs.Entry.{Entry as ModelEntry};
ghost use Rattle.dw_model.specs.Entry as model;
ghost use Rattle.dw_forms.specs.Value.{value_shown};
ghost use Rattle.dw_units.specs.Entry.{entry_shown};
ghost use Rattle.dw_units.specs.NamedRanges.{IsNamed};

use crate::entry::Entry;
use crate::view::EntryView;
use dw_forms::Value;
use dw_model::dwarf::{DW_AT_high_pc, DW_AT_low_pc, DW_AT_ranges};

/// What an entry says of its ranges, by values of kinds that count.
#[derive(Clone, Copy, Debug, PartialEq, Eq)]
pub enum NamedRanges<'a> {
    /// The list that DW_AT_ranges names.
    List(Value<'a>),
    /// From DW_AT_low_pc to DW_AT_high_pc, where both are there and DW_AT_ranges isn't.
    Bounds { low: Value<'a>, high: Value<'a> },
    /// Neither.
    Nothing,
}

/// What the values of the three attributes say.
#[inline(always)]
fn named<'a>(
    list: Option<Value<'a>>,
    low: Option<Value<'a>>,
    high: Option<Value<'a>>,
) -> NamedRanges<'a>
    ensures { (entry : ModelEntry) → option_map value_shown list.entry ≡ model.attribute DW_AT_ranges entry
        → option_map value_shown low.entry ≡ model.attribute DW_AT_low_pc entry
        → option_map value_shown high.entry ≡ model.attribute DW_AT_high_pc entry → IsNamed result entry }
{
    if let Some(list) = list {
        return NamedRanges::List(list);
    }
    let Some(low) = low else {
        return NamedRanges::Nothing;
    };
    let Some(high) = high else {
        return NamedRanges::Nothing;
    };
    NamedRanges::Bounds { low, high }
}

/// The value of an attribute that was read.
fn copied<'a>(value: Option<&Value<'a>>) -> Option<Value<'a>>
    ensures { option_map value_shown result ≡ option_map (λ value. value_shown value.now) value.entry }
{
    let value = value?;
    Some(*value)
}

impl<'a> Entry<'a> {
    /// What it says of its ranges.
    pub fn named_ranges(&self) -> NamedRanges<'a>
        ensures { IsNamed result (entry_shown self.now) }
    {
        let list = copied(self.attr(DW_AT_ranges));
        let low = copied(self.attr(DW_AT_low_pc));
        let high = copied(self.attr(DW_AT_high_pc));
        named(list, low, high)
    }
}

impl<'b, 'a> EntryView<'b, 'a> {
    /// What it says of its ranges.
    pub fn named_ranges(&self) -> NamedRanges<'a>
        ensures { IsNamed result self.now }
    {
        let list = self.attr(DW_AT_ranges);
        let low = self.attr(DW_AT_low_pc);
        let high = self.attr(DW_AT_high_pc);
        named(list, low, high)
    }
}
