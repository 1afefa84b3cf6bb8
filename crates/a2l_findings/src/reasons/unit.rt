//! The header of a unit, of every version that is known, by section 7.5.1 of DWARF 5 and of the
//! versions before it.

use crate::reasons::fields::Fields;
use crate::reasons::reason::{Read, Stop};
use dw_bytes::Width;
use dw_model::dwarf::{ADDRESS_SIZE, DW_UT_COMPILE, DW_UT_PARTIAL, DW_UT_SKELETON, DWARF_VERSION};

/// A type unit (DWARF 5, section 7.5.1, table 7.2).
pub const DW_UT_TYPE: u8 = 0x02;

/// A split unit, which belongs into a .dwo file (DWARF 5, section 7.5.1, table 7.2).
pub const DW_UT_SPLIT_COMPILE: u8 = 0x05;

/// A split type unit (DWARF 5, section 7.5.1, table 7.2).
pub const DW_UT_SPLIT_TYPE: u8 = 0x06;

/// The oldest version of units whose headers are known.
const OLDEST_VERSION: u16 = 2;

/// What the header of a unit says, also of one that is skipped. Offsets count from the first byte
/// of .debug_info.
#[derive(Clone, Copy, Debug)]
pub struct UnitHeader {
    /// The offset just past it.
    pub end: u64,
    /// The type of a unit of version 5, a DW_UT code; `None` before that.
    pub unit_type: Option<u8>,
    pub width: Width,
    pub address_size: u8,
    /// Where its abbreviations begin in .debug_abbrev.
    pub debug_abbrev_offset: u64,
    /// The offset of its first entry.
    pub first_entry: u64,
}

/// Passes over the end of a header of version 5: the id of a split unit, or a type's signature.
fn pass_ids(fields: &mut Fields<'_>, unit_type: u8, width: Width) -> Read<()> {
    match unit_type {
        DW_UT_COMPILE | DW_UT_PARTIAL => {}
        DW_UT_SKELETON | DW_UT_SPLIT_COMPILE => {
            let _ = fields.u64("dwo_id")?;
        }
        _ => {
            let number = u64::from(unit_type);
            let wanted = "1 to 6, a type of the standard";
            fields.check("unit_type", number, (1, 6), wanted)?;
            let _ = fields.u64("type_signature")?;
            let _ = fields.offset(width, "type_offset")?;
        }
    }
    Ok(())
}

/// The header of the unit at an offset of .debug_info, whose bytes are the whole section.
pub fn unit_header(info: &[u8], offset: u64) -> Read<UnitHeader> {
    let mut fields = Fields::new("unit", ".debug_info", info, offset);
    let (length, width) = fields.length()?;
    let mut header = UnitHeader {
        end: fields.at().saturating_add(length),
        unit_type: None,
        width,
        address_size: 0,
        debug_abbrev_offset: 0,
        first_entry: 0,
    };
    let version = fields.u16("version")?;
    let versions = (u64::from(OLDEST_VERSION), u64::from(DWARF_VERSION));
    fields.check("version", u64::from(version), versions, "2 to 5")?;
    if version < DWARF_VERSION {
        header.debug_abbrev_offset = fields.offset(width, "debug_abbrev_offset")?;
        header.address_size = fields.u8("address_size")?;
    } else {
        let unit_type = fields.u8("unit_type")?;
        header.unit_type = Some(unit_type);
        header.address_size = fields.u8("address_size")?;
        header.debug_abbrev_offset = fields.offset(width, "debug_abbrev_offset")?;
        pass_ids(&mut fields, unit_type, width)?;
    }
    header.first_entry = fields.at();
    Ok(header)
}

/// Why a header can't be taken: a field of it isn't there, or its addresses haven't 8 bytes.
pub(super) fn header_reason(info: &[u8], offset: u64) -> Read<()> {
    let found = u64::from(unit_header(info, offset)?.address_size);
    let wanted = u64::from(ADDRESS_SIZE);
    let fields = Fields::new("unit", ".debug_info", info, offset);
    fields.check("address_size", found, (wanted, wanted), "8")
}
