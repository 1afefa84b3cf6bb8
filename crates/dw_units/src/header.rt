//! The header of a unit of .debug_info, by section 7.5.1 of DWARF 5.

ghost use Rattle.std.specs.Prelude.{◌≡◌, ◌+◌, ◌<◌, ◌^◌, IfOk, IfSome, length, option_map};
ghost use Rattle.dw_model.specs.Unit as model;
ghost use Rattle.dw_model.specs.Root.{answers};
ghost use Rattle.dw_model.specs.Answers.{Gives};
ghost use Rattle.dw_bytes.specs.Width.{size_of};
ghost use Rattle.dw_elf.specs.OpenFault.{refusal_of};
ghost use Rattle.dw_units.specs.Header.{kind_shown, header_shown, extent_shown, IsWhole};

use dw_bytes::{Cursor, Initial, Width};
use dw_elf::OpenFault;
use dw_model::dwarf::{
    ADDRESS_SIZE, DW_UT_COMPILE, DW_UT_PARTIAL, DW_UT_SKELETON, DWARF_VERSION, DWO_ID_SIZE,
};
use std::fmt;

/// What is done with a unit. Compile and skeleton units answer addresses, partial ones are only
/// targets of references, and all others are skipped: those of a version other than 5, type units
/// and split units.
#[derive(Clone, Copy, Debug, PartialEq, Eq)]
pub enum Kind {
    Compile,
    Partial,
    Skeleton,
    Skipped,
}

/// What the header of a unit says. Offsets count from the first byte of .debug_info.
#[derive(Clone, Copy, Debug, PartialEq, Eq)]
pub(crate) struct Header {
    /// The offset of the unit's first byte.
    pub offset: u64,
    /// The offset just past its last byte.
    pub end: u64,
    /// The version of the standard by which it is written.
    pub version: u16,
    pub kind: Kind,
    /// How many bytes its offsets have.
    pub width: Width,
    /// Where its abbreviations begin in .debug_abbrev; 0 in a skipped unit.
    pub debug_abbrev_offset: u64,
    /// The offset of its first entry; its end in a skipped unit.
    pub first_entry: u64,
}

/// Where the bytes after a unit's length are.
#[derive(Clone, Copy)]
pub(crate) struct Extent {
    pub offset: u64,
    pub base: u64,
    pub end: u64,
}

impl Kind {
    /// The kind of a unit of version 5 by its type (table 7.2).
    fn of_type(unit_type: u8) -> Self
        ensures { kind_shown result ≡ model.kind_of unit_type }
    {
        match unit_type {
            DW_UT_COMPILE => Kind::Compile,
            DW_UT_PARTIAL => Kind::Partial,
            DW_UT_SKELETON => Kind::Skeleton,
            _ => Kind::Skipped,
        }
    }

    /// No entry of such a unit is read.
    pub fn is_skipped(self) -> bool
        ensures { result ≡ model.is_skipped (kind_shown self) }
    {
        matches!(self, Kind::Skipped)
    }

    /// Such a unit answers addresses.
    pub fn answers(self) -> bool
        ensures { result ≡ answers (kind_shown self) }
    {
        matches!(self, Kind::Compile | Kind::Skeleton)
    }

    /// Bytes of the `dwo_id` that ends the header.
    fn dwo_id_size(self) -> usize
        ensures { result ≡ model.dwo_id_size (kind_shown self) }
    {
        match self {
            Kind::Skeleton => DWO_ID_SIZE,
            Kind::Compile | Kind::Partial | Kind::Skipped => 0,
        }
    }
}

impl fmt::Display for Kind {
    ghost use Rattle.std.specs.Prelude.{Some};
    ghost use Rattle.dw_model.specs.Output.{kind_name};
    ghost use Rattle.dw_units.specs.Header.{kind_shown};

    ghost output = { λ kind. Some (kind_name (kind_shown kind)) };

    fn fmt<W: fmt::Write>(&self, f: &mut fmt::Formatter<W>) -> fmt::Result {
        let name = match self {
            Kind::Compile => "compile",
            Kind::Partial => "partial",
            Kind::Skeleton => "skeleton",
            Kind::Skipped => "skipped",
        };
        write!(f, "{name}")
    }
}

fn skipped_unit(extent: Extent, width: Width, version: u16) -> Header
    ensures header { header_shown result ≡ model.skipped_unit (extent_shown extent) (size_of width) version }
    ensures whole { IsWhole result }
{
    Header {
        offset: extent.offset,
        end: extent.end,
        version,
        kind: Kind::Skipped,
        width,
        debug_abbrev_offset: 0,
        first_entry: extent.end,
    }
}

/// The header of a unit that isn't skipped, after its type.
#[tactic(auto, unfolding(dw_model::specs::Unit::kept_unit))]
fn kept_unit(
    extent: Extent,
    width: Width,
    kind: Kind,
    cursor: &mut Cursor<'_>,
) -> Result<Header, OpenFault>
    requires { extent.base + (cursor.old.at + length cursor.old.left) < 2 ^ 64 }
    ensures header { Gives header_shown refusal_of result
        (model.kept_unit (extent_shown extent) (size_of width) (kind_shown kind) cursor.old) }
    ensures kind { IfOk result (λ header. header.kind ≡ kind) }
{
    let fault = OpenFault::UnitHeader(extent.offset);
    let address_size = cursor.u8().ok_or(fault)?;
    let debug_abbrev_offset = cursor.offset(width).ok_or(fault)?;
    cursor.take(kind.dwo_id_size()).ok_or(fault)?;
    if address_size != ADDRESS_SIZE {
        return Err(OpenFault::AddressSize(extent.offset));
    }
    Ok(Header {
        offset: extent.offset,
        end: extent.end,
        version: DWARF_VERSION,
        kind,
        width,
        debug_abbrev_offset,
        first_entry: extent.base + cursor.at() as u64,
    })
}

/// The unit whose bytes after its length are these.
#[tactic(auto, unfolding(dw_model::specs::Unit::unit_of))]
fn unit_of(extent: Extent, width: Width, bytes: &[u8]) -> Result<Header, OpenFault>
    requires { extent.base + length bytes.now < 2 ^ 64 }
    ensures header { Gives header_shown refusal_of result
        (model.unit_of (extent_shown extent) (size_of width) bytes.now) }
    ensures whole { IfOk result IsWhole }
{
    let fault = OpenFault::UnitHeader(extent.offset);
    let mut cursor = Cursor::new(bytes);
    let version = cursor.u16().ok_or(fault)?;
    if version != DWARF_VERSION {
        return Ok(skipped_unit(extent, width, version));
    }
    let kind = Kind::of_type(cursor.u8().ok_or(fault)?);
    if kind.is_skipped() {
        return Ok(skipped_unit(extent, width, version));
    }
    kept_unit(extent, width, kind, &mut cursor)
}

/// The piece of .debug_info at the cursor, which goes just past it: the header of a unit, or
/// padding, which is none.
#[tactic(auto, unfolding(dw_model::specs::Unit::piece_at, dw_model::specs::Unit::unit_behind))]
pub(crate) fn piece(cursor: &mut Cursor<'_>) -> Result<Option<Header>, OpenFault>
    ensures header { Gives (λ header. (option_map header_shown header, cursor.new)) refusal_of result
        (model.piece_at model.untested cursor.old) }
    ensures whole { IfOk result (λ found. IfSome found IsWhole) }
{
    let offset = cursor.at() as u64;
    let fault = OpenFault::UnitHeader(offset);
    let initial = cursor.initial_length().ok_or(fault)?;
    let Initial::Bytes(unit_length, width) = initial else {
        return Err(fault);
    };
    let base = cursor.at() as u64;
    let bytes = cursor.take(unit_length as usize).ok_or(fault)?;
    if unit_length == 0 {
        return Ok(None);
    }
    let end = cursor.at() as u64;
    let header = unit_of(Extent { offset, base, end }, width, bytes)?;
    Ok(Some(header))
}
