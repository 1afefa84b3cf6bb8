//! An ELF64 file that was accepted, and its sections.

ghost use Rattle.std.specs.Prelude.{◌≡◌, not, List, map, find, option_map, OnOk, IfOk, IfErr, None};
ghost use Rattle.dw_model.specs.Section.{section, section_in, lies_in, is_compressed, elf_refusal};
ghost use Rattle.dw_model.specs.Section as model;
ghost use Rattle.dw_model.specs.Answers.{Gives};
ghost use Rattle.dw_elf.specs.Name.{text_of};
ghost use Rattle.dw_elf.specs.OpenFault.{refusal_of, Refuses};
ghost use Rattle.dw_elf.specs.Layout.{table_shown};

use crate::fault::OpenFault;
use crate::layout::{Table, contents, file_header, header_named, table_at};
use crate::name::Name;
use dw_model::elf::{ELFCLASS64, ELFDATA2LSB, ELFMAG, ET_REL, SHF_COMPRESSED};
use std::marker::Model;

/// An ELF64 file. Contracts see it as the bytes of the file.
#[derive(Debug, Drop)]
pub struct Elf<'a> {
    file: &'a [u8],
    table: Table<'a>,
}

/// The section header table of a file, which is empty where the file has none.
#[tactic(auto, unfolding(dw_model::specs::Section::table_of))]
fn table_of<'a>(file: &'a [u8]) -> Result<Table<'a>, OpenFault>
    ensures { Gives table_shown refusal_of result (model.table_of file.now) }
{
    let header = file_header(file).ok_or(OpenFault::NotElf)?;
    if header.magic != ELFMAG.as_slice() {
        return Err(OpenFault::NotElf);
    }
    if header.class != ELFCLASS64 || header.encoding != ELFDATA2LSB {
        return Err(OpenFault::NotElf64Little);
    }
    if header.e_type == ET_REL {
        return Err(OpenFault::Relocatable);
    }
    if header.e_shoff == 0 {
        return Ok(Table::empty());
    }
    table_at(file, &header).ok_or(OpenFault::SectionTable)
}

/// The first header of the name gives bytes that lie in the file, or there is none.
#[tactic(auto, unfolding(dw_model::specs::Section::lies_in))]
fn lies_in(file: &[u8], table: &Table<'_>, name: Name) -> bool
    ensures { result ≡ model.lies_in file.now (table_shown table.now) (text_of name) }
{
    match header_named(name.text(), table) {
        None => true,
        Some(header) => contents(file, &header).is_some(),
    }
}

/// The first of the names whose section runs past the end of the file.
fn first_outside(file: &[u8], table: &Table<'_>, names: &[Name]) -> Option<Name>
    ensures { result
        ≡ find (λ name. not (lies_in file.now (table_shown table.now) (text_of name))) names.now }
{
    names
        .iter()
        .copied()
        .find(|name| !lies_in(file, table, *name))
}

/// The bytes of the name's section are compressed, or only its older compressed form is there.
#[tactic(auto, unfolding(dw_model::specs::Section::is_compressed))]
fn is_compressed(table: &Table<'_>, name: Name) -> bool
    ensures { result ≡ model.is_compressed (table_shown table.now) (text_of name) }
{
    match header_named(name.text(), table) {
        Some(header) => header.sh_flags & SHF_COMPRESSED != 0 && !header.takes_nothing(),
        None => header_named(name.compressed_text(), table).is_some(),
    }
}

/// The first of the names whose section is compressed.
fn first_compressed(table: &Table<'_>, names: &[Name]) -> Option<Name>
    ensures { result ≡ find (λ name. is_compressed (table_shown table.now) (text_of name)) names.now }
{
    names
        .iter()
        .copied()
        .find(|name| is_compressed(table, *name))
}

impl<'a> Model for Elf<'a> {
    ghost use Rattle.std.specs.Prelude.{List, ℕ};
    ghost use Rattle.std.specs.Coded.{coded_list, coded_ℕ};

    ghost Value = { List ℕ };

    ghost coded = { coded_list coded_ℕ };

    ghost use Rattle.dw_elf.specs.Elf.{file_of, IsAccepted};

    ghost view = { file_of };

    ghost invariant = { IsAccepted };
}

impl<'a> Elf<'a> {
    /// Opens a file: its header, its section header table, that each used section lies in it, and
    /// that none is compressed.
    ///
    /// The error is the first condition that fails.
    #[tactic(auto, unfolding(dw_model::specs::Section::accepted_table))]
    pub fn open(file: &'a [u8]) -> Result<Self, OpenFault>
        ensures accepted { OnOk result (elf_refusal file.now ≡ None) }
        ensures file { IfOk result (λ elf. elf ≡ file.now) }
        ensures refused { IfErr result (λ fault. Refuses fault (elf_refusal file.now)) }
    {
        let table = table_of(file)?;
        if let Some(name) = first_outside(file, &table, &Name::ALL) {
            return Err(OpenFault::SectionRange(name));
        }
        match first_compressed(&table, &Name::ALL) {
            None => Ok(Elf { file, table }),
            Some(name) => Err(OpenFault::Compressed(name)),
        }
    }

    /// The bytes of a used section, as a slice of the file: those that the first header of its name
    /// gives, and none where there is no such header.
    #[tactic(auto, unfolding(dw_model::specs::Section::section, dw_model::specs::Section::section_in))]
    pub fn section(&self, name: Name) -> &'a [u8]
        ensures { result.now ≡ section self.now (text_of name) }
    {
        match header_named(name.text(), &self.table) {
            None => &[],
            Some(header) => contents(self.file, &header).unwrap_or(&[]),
        }
    }
}
