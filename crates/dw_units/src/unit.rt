//! A unit of .debug_info with what its first entry says of it, by section 7.5 of DWARF 5.

ghost use Rattle.std.specs.Prelude.{◌≡◌, IfOk, IfErr, option_map};
ghost use Rattle.dw_model.specs.Text.{bases_in};
ghost use Rattle.dw_model.specs.Root.{has_root};
ghost use Rattle.dw_model.specs.Faults.{root};
ghost use Rattle.dw_model.specs.Answers.{GivesUnlessMemory};
ghost use Rattle.dw_bytes.specs.Width.{size_of};
ghost use Rattle.dw_elf.specs.OpenFault.{refusal_of};
ghost use Rattle.dw_forms.specs.Fault.{form_fault};
ghost use Rattle.dw_forms.specs.Store.{IsKept};
ghost use Rattle.dw_forms.specs.Tables.{bases_shown};
ghost use Rattle.dw_units.specs.Entry.{entry_shown};
ghost use Rattle.dw_units.specs.Header.{header_shown, IsWhole};
ghost use Rattle.dw_units.specs.Sections.{sections_shown};
ghost use Rattle.dw_units.specs.Unit.{unit_shown, IsOpened, HidesNoTable};

use crate::bases::bases_of;
use crate::entry::{Entry, entry_in};
use crate::header::{Header, Kind};
use crate::sections::Sections;
use dw_bytes::Width;
use dw_elf::OpenFault;
use dw_forms::{AbbrevStore, Bases, FormFault, Start};
use std::alloc::Global;

/// A unit of .debug_info. Offsets count from the first byte of the section.
#[derive(Drop)]
pub struct Unit<'a> {
    /// The offset of its first byte.
    pub offset: u64,
    /// The offset just past its last byte.
    pub end: u64,
    /// The version of the standard by which it is written.
    pub version: u16,
    pub kind: Kind,
    /// How many bytes its offsets have.
    pub width: Width,
    /// Where its abbreviations begin in .debug_abbrev; 0 in a skipped unit.
    pub debug_abbrev_offset: u64,
    /// The offset of its first entry; its end in a skipped unit.
    pub first_entry: u64,
    /// Where its entries begin in the sections that units share. A skipped unit has no base.
    pub bases: Bases,
    /// Its first entry; `None` in a skipped unit, and in no other.
    pub root: Option<Entry<'a>>,
    /// Where the table of its declarations begins; `None` in a skipped unit.
    pub(crate) table: Option<Start>,
}

impl<'a> Unit<'a> {
    /// The unit of this header and this first entry.
    fn new(header: Header, table: Option<Start>, root: Option<Entry<'a>>) -> Self
        ensures header { unit_shown result ≡ header_shown header }
        ensures bases { bases_shown result.bases ≡ bases_in (size_of header.width) (option_map entry_shown root.entry) }
        ensures root { result.root ≡ root.entry }
        ensures table { result.table ≡ table }
    {
        Unit {
            offset: header.offset,
            end: header.end,
            version: header.version,
            kind: header.kind,
            width: header.width,
            debug_abbrev_offset: header.debug_abbrev_offset,
            first_entry: header.first_entry,
            bases: bases_of(&root, header.width),
            root,
            table,
        }
    }

    /// What its header says.
    pub(crate) fn header(&self) -> Header
        ensures { header_shown result ≡ unit_shown self.now }
    {
        Header {
            offset: self.offset,
            end: self.end,
            version: self.version,
            kind: self.kind,
            width: self.width,
            debug_abbrev_offset: self.debug_abbrev_offset,
            first_entry: self.first_entry,
        }
    }
}

/// What is told of a unit whose first entry can't be read.
fn root_fault(offset: u64, fault: FormFault) -> OpenFault
    ensures { refusal_of result ≡ option_map (λ _. root offset) (form_fault fault) }
{
    match fault {
        FormFault::Memory => OpenFault::Memory,
        FormFault::End | FormFault::Form | FormFault::Wide | FormFault::Code => {
            OpenFault::Root(offset)
        }
    }
}

/// The unit of a header. Its declarations and its first entry are read where it isn't skipped.
///
/// The error is `Root` where they can't be read, or `Memory`; that is told only of a unit whose
/// declarations can be read.
pub(crate) fn open_unit<'a>(
    alloc: Global,
    sections: &Sections<'a>,
    abbrevs: &mut AbbrevStore<'a>,
    header: Header,
) -> Result<Unit<'a>, OpenFault>
    requires section { abbrevs.old.section ≡ sections.now.abbrevs.now }
    requires whole { IsWhole header }
    ensures section { abbrevs.new.section ≡ abbrevs.old.section }
    ensures kept { IsKept abbrevs.old abbrevs.new }
    ensures header { IfOk result (λ unit. unit_shown unit ≡ header_shown header) }
    ensures opened { IfOk result (λ unit. IsOpened (sections_shown sections.now) abbrevs.new unit) }
    ensures root { GivesUnlessMemory (λ _. tt) refusal_of result
        (has_root (sections_shown sections.now) (header_shown header)) }
    ensures memory { IfErr result (λ fault. HidesNoTable fault (sections_shown sections.now) (header_shown header)) }
{
    if header.kind.is_skipped() {
        return Ok(Unit::new(header, None, None));
    }
    let table = match abbrevs.start(alloc, header.debug_abbrev_offset) {
        Ok(table) => table,
        Err(fault) => return Err(root_fault(header.offset, fault)),
    };
    let declared = abbrevs.table(table);
    let found = match entry_in(alloc, sections, &header, declared, header.first_entry) {
        Ok(found) => found,
        Err(fault) => return Err(root_fault(header.offset, fault)),
    };
    let Some(root) = found else {
        return Err(OpenFault::Root(header.offset));
    };
    Ok(Unit::new(header, Some(table), Some(root)))
}
