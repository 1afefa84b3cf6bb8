//! How the value of each form is spelled, by table 7.6 of DWARF 5.

ghost use Rattle.std.specs.Prelude.{◌≡◌, option_map, nat_eq};
ghost use Rattle.std.specs.Map.{lookup};
ghost use Rattle.dw_model.specs.Form.{forms};
ghost use Rattle.dw_forms.specs.Spelling.{spelling_shown};

use dw_model::dwarf::{
    DW_FORM_GNU_ref_alt, DW_FORM_GNU_strp_alt, DW_FORM_addr, DW_FORM_addrx, DW_FORM_addrx1,
    DW_FORM_addrx2, DW_FORM_addrx3, DW_FORM_addrx4, DW_FORM_block, DW_FORM_block1, DW_FORM_block2,
    DW_FORM_block4, DW_FORM_data1, DW_FORM_data2, DW_FORM_data4, DW_FORM_data8, DW_FORM_data16,
    DW_FORM_exprloc, DW_FORM_flag, DW_FORM_flag_present, DW_FORM_implicit_const, DW_FORM_line_strp,
    DW_FORM_loclistx, DW_FORM_ref_addr, DW_FORM_ref_sig8, DW_FORM_ref_sup4, DW_FORM_ref_sup8,
    DW_FORM_ref_udata, DW_FORM_ref1, DW_FORM_ref2, DW_FORM_ref4, DW_FORM_ref8, DW_FORM_rnglistx,
    DW_FORM_sdata, DW_FORM_sec_offset, DW_FORM_string, DW_FORM_strp, DW_FORM_strp_sup,
    DW_FORM_strx, DW_FORM_strx1, DW_FORM_strx2, DW_FORM_strx3, DW_FORM_strx4, DW_FORM_udata,
};

/// What the number of a value is.
#[derive(Clone, Copy)]
pub(crate) enum Class {
    Address,
    Unsigned,
    Str,
    LineStr,
    StrIndex,
    AddressIndex,
    UnitRef,
    SectionRef,
    SectionOffset,
    RangeIndex,
    Unused,
}

/// How many bytes a number has.
#[derive(Clone, Copy)]
pub(crate) enum Size {
    One,
    Two,
    Three,
    Four,
    Eight,
}

/// How a value is spelled.
#[derive(Clone, Copy)]
pub(crate) enum Spelling {
    /// A number of a size.
    Fixed(Size, Class),
    /// A number of the size of an offset.
    Offset(Class),
    /// An unsigned LEB128 number.
    Uleb(Class),
    /// A signed LEB128 number.
    Sleb,
    /// A byte that isn't 0 where the flag is set.
    Flag,
    /// So many bytes.
    Block(usize),
    /// A length of a size, and as many bytes.
    Counted(Size),
    /// A length in LEB128, and as many bytes.
    UlebCounted,
    /// A text with a zero byte after it.
    Text,
    /// By nothing: its number is in the declaration.
    Implicit,
    /// By nothing: it is a flag that is set by being there.
    Present,
}

/// The spelling of a form's values; `None` for DW_FORM_indirect, which only names another form, and
/// for forms that aren't known.
#[inline(always)]
pub(crate) fn spelling_of(form: u64) -> Option<Spelling>
    ensures { option_map spelling_shown result ≡ lookup (nat_eq form) forms }
{
    match form {
        DW_FORM_addr => Some(Spelling::Fixed(Size::Eight, Class::Address)),
        DW_FORM_block2 => Some(Spelling::Counted(Size::Two)),
        DW_FORM_block4 => Some(Spelling::Counted(Size::Four)),
        DW_FORM_data2 => Some(Spelling::Fixed(Size::Two, Class::Unsigned)),
        DW_FORM_data4 => Some(Spelling::Fixed(Size::Four, Class::Unsigned)),
        DW_FORM_data8 => Some(Spelling::Fixed(Size::Eight, Class::Unsigned)),
        DW_FORM_string => Some(Spelling::Text),
        DW_FORM_block => Some(Spelling::UlebCounted),
        DW_FORM_block1 => Some(Spelling::Counted(Size::One)),
        DW_FORM_data1 => Some(Spelling::Fixed(Size::One, Class::Unsigned)),
        DW_FORM_flag => Some(Spelling::Flag),
        DW_FORM_sdata => Some(Spelling::Sleb),
        DW_FORM_strp => Some(Spelling::Offset(Class::Str)),
        DW_FORM_udata => Some(Spelling::Uleb(Class::Unsigned)),
        DW_FORM_ref_addr => Some(Spelling::Offset(Class::SectionRef)),
        DW_FORM_ref1 => Some(Spelling::Fixed(Size::One, Class::UnitRef)),
        DW_FORM_ref2 => Some(Spelling::Fixed(Size::Two, Class::UnitRef)),
        DW_FORM_ref4 => Some(Spelling::Fixed(Size::Four, Class::UnitRef)),
        DW_FORM_ref8 => Some(Spelling::Fixed(Size::Eight, Class::UnitRef)),
        DW_FORM_ref_udata => Some(Spelling::Uleb(Class::UnitRef)),
        DW_FORM_sec_offset => Some(Spelling::Offset(Class::SectionOffset)),
        DW_FORM_exprloc => Some(Spelling::UlebCounted),
        DW_FORM_flag_present => Some(Spelling::Present),
        DW_FORM_strx => Some(Spelling::Uleb(Class::StrIndex)),
        DW_FORM_addrx => Some(Spelling::Uleb(Class::AddressIndex)),
        DW_FORM_ref_sup4 => Some(Spelling::Fixed(Size::Four, Class::Unused)),
        DW_FORM_strp_sup => Some(Spelling::Offset(Class::Unused)),
        DW_FORM_data16 => Some(Spelling::Block(16)),
        DW_FORM_line_strp => Some(Spelling::Offset(Class::LineStr)),
        DW_FORM_ref_sig8 => Some(Spelling::Fixed(Size::Eight, Class::Unused)),
        DW_FORM_implicit_const => Some(Spelling::Implicit),
        DW_FORM_loclistx => Some(Spelling::Uleb(Class::Unused)),
        DW_FORM_rnglistx => Some(Spelling::Uleb(Class::RangeIndex)),
        DW_FORM_ref_sup8 => Some(Spelling::Fixed(Size::Eight, Class::Unused)),
        DW_FORM_strx1 => Some(Spelling::Fixed(Size::One, Class::StrIndex)),
        DW_FORM_strx2 => Some(Spelling::Fixed(Size::Two, Class::StrIndex)),
        DW_FORM_strx3 => Some(Spelling::Fixed(Size::Three, Class::StrIndex)),
        DW_FORM_strx4 => Some(Spelling::Fixed(Size::Four, Class::StrIndex)),
        DW_FORM_addrx1 => Some(Spelling::Fixed(Size::One, Class::AddressIndex)),
        DW_FORM_addrx2 => Some(Spelling::Fixed(Size::Two, Class::AddressIndex)),
        DW_FORM_addrx3 => Some(Spelling::Fixed(Size::Three, Class::AddressIndex)),
        DW_FORM_addrx4 => Some(Spelling::Fixed(Size::Four, Class::AddressIndex)),
        DW_FORM_GNU_ref_alt => Some(Spelling::Offset(Class::Unused)),
        DW_FORM_GNU_strp_alt => Some(Spelling::Offset(Class::Unused)),
        _ => None,
    }
}
