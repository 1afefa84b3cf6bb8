//! The names of attributes that are used.

ghost use Rattle.std.specs.Prelude.{◌≡◌};
ghost use Rattle.dw_forms.specs.Names.{is_used};

use dw_model::dwarf::{
    DW_AT_abstract_origin, DW_AT_addr_base, DW_AT_call_column, DW_AT_call_file, DW_AT_call_line,
    DW_AT_comp_dir, DW_AT_high_pc, DW_AT_linkage_name, DW_AT_low_pc, DW_AT_name, DW_AT_ranges,
    DW_AT_rnglists_base, DW_AT_specification, DW_AT_stmt_list, DW_AT_str_offsets_base,
};

/// Those names, each once.
pub const NAMES: [u64; 15] = [
    DW_AT_name,
    DW_AT_comp_dir,
    DW_AT_linkage_name,
    DW_AT_stmt_list,
    DW_AT_low_pc,
    DW_AT_high_pc,
    DW_AT_ranges,
    DW_AT_abstract_origin,
    DW_AT_specification,
    DW_AT_call_column,
    DW_AT_call_file,
    DW_AT_call_line,
    DW_AT_str_offsets_base,
    DW_AT_addr_base,
    DW_AT_rnglists_base,
];

/// A name is one of them.
#[inline(always)]
pub(crate) fn is_used(name: u64) -> bool
    ensures { result ≡ is_used name }
{
    matches!(
        name,
        DW_AT_name
            | DW_AT_comp_dir
            | DW_AT_linkage_name
            | DW_AT_stmt_list
            | DW_AT_low_pc
            | DW_AT_high_pc
            | DW_AT_ranges
            | DW_AT_abstract_origin
            | DW_AT_specification
            | DW_AT_call_column
            | DW_AT_call_file
            | DW_AT_call_line
            | DW_AT_str_offsets_base
            | DW_AT_addr_base
            | DW_AT_rnglists_base
    )
}
