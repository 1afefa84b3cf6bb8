//! Why an entry can't be read, or a table of abbreviations, by sections 7.5.2 to 7.5.6 of DWARF 5.

use crate::reasons::fields::Fields;
use crate::reasons::reason::{Field, Found, Read, Spot, Stop};
use crate::reasons::unit::UnitHeader;
use dw_forms::{Abbrevs, FormFault};
use dw_model::dwarf::{
    DW_FORM_GNU_ref_alt, DW_FORM_GNU_strp_alt, DW_FORM_implicit_const, DW_FORM_ref_sup4,
    DW_FORM_ref_sup8, DW_FORM_strp_sup,
};
use dw_units::{Attribute, Sections};
use std::alloc::Global;

const ABBREVS: &str = ".debug_abbrev";
/// The first field of an entry.
const CODE: &str = "its abbreviation code";

/// The fields of the entry at an offset of a unit.
fn fields_at<'a>(sections: &Sections<'a>, unit: &UnitHeader, offset: u64) -> Fields<'a> {
    let len = sections.info.len().min(unit.end as usize);
    let bytes = sections.info.split_at(len).0;
    Fields::new("entry", ".debug_info", bytes, offset)
}

/// Adds the attributes of the entry at an offset of a unit, up to the first that can't be read.
pub fn push_attributes<'a>(
    alloc: Global,
    sections: &Sections<'a>,
    unit: &UnitHeader,
    offset: u64,
    attributes: &mut Vec<Attribute<'a>>,
) -> Read<()> {
    let abbrevs = match Abbrevs::read(alloc, sections.abbrevs, unit.debug_abbrev_offset) {
        Ok(abbrevs) => abbrevs,
        Err(FormFault::Memory) => return Err(Stop::Memory),
        Err(_) => return Ok(()),
    };
    let mut fields = fields_at(sections, unit, offset);
    let code = fields.uleb(CODE)?;
    if code == 0 {
        return Ok(());
    }
    let Some(declaration) = abbrevs.get(code) else {
        let wanted = "a code that the unit's abbreviations declare";
        return Err(fields.stop(CODE, Found::Number(code), wanted));
    };
    let mut left = declaration.specs.fork();
    for _ in 0..declaration.specs.len() {
        let Some(spec) = left.take_first() else {
            break;
        };
        let name = spec.name;
        let field = Field::Attribute(name, spec.form);
        let value = fields.value(field, spec.form, spec.implicit, unit.width)?;
        attributes.push(Attribute { name, value })?;
    }
    Ok(())
}

/// Why the first entry of a unit can't be taken.
pub(super) fn root_reason(alloc: Global, sections: &Sections<'_>, unit: &UnitHeader) -> Read<()> {
    let at = unit.first_entry;
    push_attributes(alloc, sections, unit, at, &mut Vec::new(alloc))?;
    let mut fields = fields_at(sections, unit, at);
    if fields.uleb(CODE)? != 0 {
        return Ok(());
    }
    let found = Found::Named(0, "a null entry");
    Err(fields.stop(CODE, found, "the code of the unit's first entry"))
}

/// A form that leads to a supplementary file (DWARF 5, section 7.3.6; a vendor's before it).
fn is_supplementary(form: u64) -> bool {
    matches!(
        form,
        DW_FORM_strp_sup
            | DW_FORM_ref_sup4
            | DW_FORM_ref_sup8
            | DW_FORM_GNU_ref_alt
            | DW_FORM_GNU_strp_alt
    )
}

/// Passes over the pairs of a declaration; whether some form leads to a supplementary file.
fn pass_pairs(fields: &mut Fields<'_>) -> Read<bool> {
    let mut leads = false;
    // The last turn finds no byte, and is refused.
    for _ in 0..=fields.left() {
        let name = fields.uleb("the name of an attribute")?;
        let form = fields.uleb("the form of an attribute")?;
        if name == 0 && form == 0 {
            return Ok(leads);
        }
        if form == DW_FORM_implicit_const {
            fields.pass_sleb("the number of DW_FORM_implicit_const")?;
        }
        leads = leads || is_supplementary(form);
    }
    Ok(leads)
}

/// Passes over the declarations from an offset on; whether some form leads to a supplementary file.
/// It stops at the first such form where that is all that counts.
fn pass_declarations(section: &[u8], offset: u64, first: bool) -> Read<bool> {
    let mut at = offset;
    for _ in 0..section.len() {
        let mut fields = Fields::new("declaration", ABBREVS, section, at);
        if fields.left() == 0 || fields.uleb("its code")? == 0 {
            return Ok(false);
        }
        let _ = fields.uleb("its tag")?;
        let _ = fields.u8("whether it has children")?;
        if pass_pairs(&mut fields)? && first {
            return Ok(true);
        }
        at = fields.at();
    }
    Ok(false)
}

/// The abbreviations at an offset declare values that lead to a supplementary file.
pub fn uses_supplementary(section: &[u8], offset: u64) -> bool {
    pass_declarations(section, offset, true).unwrap_or(false)
}

/// Why the table at an offset of .debug_abbrev can't be read, of the unit at an offset.
pub(super) fn abbrevs_reason(section: &[u8], unit: u64, offset: u64) -> Read<()> {
    let spot = Spot::At("unit", unit, ".debug_info");
    spot.check_offset("debug_abbrev_offset", offset, section, ABBREVS)?;
    let _ = pass_declarations(section, offset, false)?;
    Ok(())
}
