//! Why the ranges of an entry can't be read, by sections 2.17, 7.25 and 7.28 of DWARF 5.

use crate::note::Words;
use crate::reasons::fields::Fields;
use crate::reasons::reason::{Found, Read, Spot, Stop, Wanted};
use dw_forms::Value;
use dw_model::dwarf::{
    DW_AT_high_pc, DW_AT_low_pc, DW_AT_ranges, DW_RLE_base_address, DW_RLE_base_addressx,
    DW_RLE_end_of_list, DW_RLE_offset_pair, DW_RLE_start_end, DW_RLE_start_length,
    DW_RLE_startx_endx, DW_RLE_startx_length,
};
use dw_units::{Entry, OpenUnit};

const SECTION: &str = ".debug_rnglists";
/// The first field of an entry of a list.
const KIND: &str = "the kind of an entry of the list";

/// An operand of an entry of a list, by its name.
#[derive(Clone, Copy)]
enum Operand {
    /// There is none.
    Nothing,
    /// A LEB128 number.
    Number(Words),
    /// An address.
    Address(Words),
    /// A LEB128 number, and the address to which it leads.
    Index(Words, Words),
}

/// The operands of an entry of a kind (section 7.25, table 7.30); `None` of an unknown kind.
fn operands_of(kind: u8) -> Option<(Operand, Operand)> {
    let begin = "the index of the begin";
    let end = "the index of the end";
    let length = Operand::Number("the length");
    Some(match kind {
        DW_RLE_end_of_list => (Operand::Nothing, Operand::Nothing),
        DW_RLE_base_addressx => (
            Operand::Index("the index of the base", "the base of DW_RLE_base_addressx"),
            Operand::Nothing,
        ),
        DW_RLE_startx_endx => (
            Operand::Index(begin, "the begin of DW_RLE_startx_endx"),
            Operand::Index(end, "the end of DW_RLE_startx_endx"),
        ),
        DW_RLE_startx_length => (
            Operand::Index(begin, "the begin of DW_RLE_startx_length"),
            length,
        ),
        DW_RLE_offset_pair => (
            Operand::Number("the offset of the begin"),
            Operand::Number("the offset of the end"),
        ),
        DW_RLE_base_address => (Operand::Address("the base"), Operand::Nothing),
        DW_RLE_start_end => (Operand::Address("the begin"), Operand::Address("the end")),
        DW_RLE_start_length => (Operand::Address("the begin"), length),
        _ => return None,
    })
}

/// A value that leads to an address has to do so.
fn check_address(here: OpenUnit<'_, '_>, spot: Spot, field: Words, value: &Value<'_>) -> Read<()> {
    let tables = here.units().tables();
    let bases = &here.unit().bases;
    if tables.address(value, bases).is_some() {
        return Ok(());
    }
    let (found, wanted) = match (*value, bases.addr) {
        (Value::AddressIndex(index), Some(base)) => (
            Found::IndexBehind(index, base),
            Wanted::Within(".debug_addr", tables.addr.len()),
        ),
        (Value::AddressIndex(index), None) => (
            Found::Index(index),
            Wanted::Words("a unit with DW_AT_addr_base"),
        ),
        _ => (
            Found::Words("no address"),
            Wanted::Words("an address, or the index of one"),
        ),
    };
    Err(spot.stop(field, found, wanted))
}

/// A list that is gone through.
#[derive(Drop)]
struct List<'b, 'a> {
    here: OpenUnit<'b, 'a>,
    fields: Fields<'a>,
    /// There is a base for offsets.
    has_base: bool,
}

impl<'b, 'a> List<'b, 'a> {
    /// Reads an operand; one that is an index has to lead to an address.
    fn read(&mut self, operand: Operand) -> Read<()> {
        match operand {
            Operand::Nothing => Ok(()),
            Operand::Number(name) => {
                let _ = self.fields.uleb(name)?;
                Ok(())
            }
            Operand::Address(name) => {
                let _ = self.fields.u64(name)?;
                Ok(())
            }
            Operand::Index(name, address) => {
                let index = Value::AddressIndex(self.fields.uleb(name)?);
                check_address(self.here, self.fields.spot, address, &index)
            }
        }
    }

    /// The next entry; whether it isn't the last.
    fn check_entry(&mut self) -> Read<bool> {
        let kind = self.fields.u8(KIND)?;
        let Some((one, other)) = operands_of(kind) else {
            let found = Found::Number(u64::from(kind));
            return Err(self.fields.stop(KIND, found, "0 to 7, a DW_RLE code"));
        };
        self.read(one)?;
        self.read(other)?;
        if kind == DW_RLE_offset_pair && !self.has_base {
            let found = Found::Words("an address that can't be read, DW_AT_low_pc of the unit");
            let field = "the base of DW_RLE_offset_pair";
            return Err(self.fields.stop(field, found, "an address"));
        }
        let is_base = kind == DW_RLE_base_addressx || kind == DW_RLE_base_address;
        self.has_base = self.has_base || is_base;
        Ok(kind != DW_RLE_end_of_list)
    }
}

/// Why the list at an offset of .debug_rnglists can't be read.
fn check_list(here: OpenUnit<'_, '_>, offset: u64, has_base: bool) -> Read<()> {
    let bytes = here.units().tables().rnglists;
    let mut list = List {
        here,
        fields: Fields::new("range list", SECTION, bytes, offset),
        has_base,
    };
    // The last turn finds no byte, and is refused.
    for _ in 0..=bytes.len() {
        if !list.check_entry()? {
            return Ok(());
        }
    }
    Ok(())
}

/// The offset of .debug_rnglists that a value names, itself or by an index after the unit's base.
fn list_offset(here: OpenUnit<'_, '_>, spot: Spot, value: &Value<'_>) -> Read<Option<u64>> {
    let index = match *value {
        Value::SectionOffset(offset) => return Ok(Some(offset)),
        Value::RangeIndex(index) => index,
        _ => return Ok(None),
    };
    let Some(base) = here.unit().bases.rnglists else {
        let wanted = Wanted::Words("a unit with DW_AT_rnglists_base");
        return Err(spot.stop("DW_AT_ranges", Found::Index(index), wanted));
    };
    let width = here.width();
    let at = index
        .saturating_mul(width.size() as u64)
        .saturating_add(base);
    let mut fields = Fields::of(spot, SECTION, here.units().tables().rnglists, at);
    let offset = fields.offset(width, "DW_AT_ranges, by its index")?;
    Ok(base.checked_add(offset))
}

/// The base before any entry sets one is there: the unit's DW_AT_low_pc isn't there, or is read.
fn has_first_base(here: OpenUnit<'_, '_>) -> bool {
    let Some(root) = &here.unit().root else {
        return true;
    };
    match root.attr(DW_AT_low_pc) {
        Some(low) => here.address(low).is_some(),
        None => true,
    }
}

/// Why the ranges of an entry of a unit can't be read.
pub(super) fn ranges_reason(here: OpenUnit<'_, '_>, entry: &Entry<'_>) -> Read<()> {
    let spot = Spot::At("entry", entry.offset, ".debug_info");
    if let Some(list) = entry.attr(DW_AT_ranges) {
        let Some(offset) = list_offset(here, spot, list)? else {
            return Ok(());
        };
        let section = here.units().tables().rnglists;
        spot.check_offset("DW_AT_ranges", offset, section, SECTION)?;
        return check_list(here, offset, has_first_base(here));
    }
    let (Some(low), Some(high)) = (entry.attr(DW_AT_low_pc), entry.attr(DW_AT_high_pc)) else {
        return Ok(());
    };
    check_address(here, spot, "DW_AT_low_pc", low)?;
    match high {
        Value::Unsigned(_) | Value::Signed(_) => Ok(()),
        _ => check_address(here, spot, "DW_AT_high_pc", high),
    }
}
