//! Which kinds of value count for which attribute, by sections 7.5.4 and 7.5.5 of DWARF 5.

ghost use Rattle.std.specs.Prelude.{◌≡◌, false, nat_eq};
ghost use Rattle.std.specs.Option.{option_map_or};
ghost use Rattle.std.specs.Map.{lookup};
ghost use Rattle.dw_model.specs.Entry.{classes};
ghost use Rattle.dw_model.specs.Entry as model;
ghost use Rattle.dw_forms.specs.Value.{value_shown};

use dw_forms::Value;
use dw_model::dwarf::{
    DW_AT_abstract_origin, DW_AT_addr_base, DW_AT_call_column, DW_AT_call_file, DW_AT_call_line,
    DW_AT_comp_dir, DW_AT_high_pc, DW_AT_linkage_name, DW_AT_low_pc, DW_AT_name, DW_AT_ranges,
    DW_AT_rnglists_base, DW_AT_specification, DW_AT_stmt_list, DW_AT_str_offsets_base,
};

/// An offset of a section that the attribute names.
fn is_section_offset(value: &Value<'_>) -> bool
    ensures { result ≡ model.is_section_offset (value_shown value.now) }
{
    matches!(value, Value::SectionOffset(_))
}

fn is_text(value: &Value<'_>) -> bool
    ensures { result ≡ model.is_text (value_shown value.now) }
{
    matches!(
        value,
        Value::Inline(_) | Value::Str(_) | Value::LineStr(_) | Value::StrIndex(_)
    )
}

fn is_address(value: &Value<'_>) -> bool
    ensures { result ≡ model.is_address (value_shown value.now) }
{
    matches!(value, Value::Address(_) | Value::AddressIndex(_))
}

fn is_constant(value: &Value<'_>) -> bool
    ensures { result ≡ model.is_constant (value_shown value.now) }
{
    matches!(value, Value::Unsigned(_) | Value::Signed(_))
}

fn is_range_list(value: &Value<'_>) -> bool
    ensures { result ≡ model.is_range_list (value_shown value.now) }
{
    matches!(value, Value::SectionOffset(_) | Value::RangeIndex(_))
}

fn is_reference(value: &Value<'_>) -> bool
    ensures { result ≡ model.is_reference (value_shown value.now) }
{
    matches!(value, Value::UnitRef(_) | Value::SectionRef(_))
}

/// The value counts for an attribute of this name: never for one that isn't used here.
#[inline(always)]
pub(crate) fn counts(name: u64, value: &Value<'_>) -> bool
    ensures { result ≡ option_map_or (λ counts. counts (value_shown value.now)) (lookup (nat_eq name) classes) false }
{
    match name {
        DW_AT_name => is_text(value),
        DW_AT_comp_dir => is_text(value),
        DW_AT_linkage_name => is_text(value),
        DW_AT_stmt_list => is_section_offset(value),
        DW_AT_low_pc => is_address(value),
        DW_AT_high_pc => is_address(value) || is_constant(value),
        DW_AT_ranges => is_range_list(value),
        DW_AT_abstract_origin => is_reference(value),
        DW_AT_specification => is_reference(value),
        DW_AT_call_column => is_constant(value),
        DW_AT_call_file => is_constant(value),
        DW_AT_call_line => is_constant(value),
        DW_AT_str_offsets_base => is_section_offset(value),
        DW_AT_addr_base => is_section_offset(value),
        DW_AT_rnglists_base => is_section_offset(value),
        _ => false,
    }
}
