//! The section headers of a file, all of them, by section 4 of ELF.
//!
//! `dw_elf` gives the sections that hold debug information, and says of the others nothing.

use crate::note::Allocated;
use dw_bytes::Cursor;
use dw_model::elf::{SHDR_SIZE, SHN_XINDEX, SHT_NOBITS};
use std::alloc::Global;

/// Bits of `sh_flags` on a section that takes memory while the program runs, and on one with
/// instructions (ELF section 4).
const SHF_ALLOC: u64 = 0x2;

const SHF_EXECINSTR: u64 = 0x4;

/// A section header, by the standard's names of its fields.
#[derive(Clone, Copy, Debug)]
pub struct SectionHeader {
    pub sh_name: u32,
    pub sh_type: u32,
    pub sh_flags: u64,
    /// Where it lies while the program runs.
    pub sh_addr: u64,
    pub sh_offset: u64,
    pub sh_size: u64,
    pub sh_link: u32,
}

/// The section headers of a file, in order, as many as can be read.
#[derive(Debug, Drop)]
pub struct SectionHeaders<'a> {
    file: &'a [u8],
    pub e_shoff: u64,
    pub e_shentsize: u16,
    /// How many there have to be.
    pub count: u64,
    /// The index of the section with the names; 0 where there is none.
    pub names: u32,
    pub list: Vec<SectionHeader>,
}

impl SectionHeader {
    /// It has all these flags.
    fn has(&self, flags: u64) -> bool {
        self.sh_flags & flags == flags
    }

    /// It takes memory while the program runs, and an address lies in it.
    fn holds(&self, address: u64) -> bool {
        self.has(SHF_ALLOC) && address >= self.sh_addr && address - self.sh_addr < self.sh_size
    }
}

/// The section header at an offset of a file.
fn header_at(file: &[u8], offset: u64) -> Option<SectionHeader> {
    let mut cursor = Cursor::new(file);
    let _ = cursor.take(offset as usize)?;
    let header = SectionHeader {
        sh_name: cursor.u32()?,
        sh_type: cursor.u32()?,
        sh_flags: cursor.u64()?,
        sh_addr: cursor.u64()?,
        sh_offset: cursor.u64()?,
        sh_size: cursor.u64()?,
        sh_link: cursor.u32()?,
    };
    let _ = cursor.take(20)?;
    Some(header)
}

impl<'a> SectionHeaders<'a> {
    /// The section headers of a file.
    pub fn read(alloc: Global, file: &'a [u8]) -> Allocated<Self> {
        let mut headers = SectionHeaders {
            file,
            e_shoff: 0,
            e_shentsize: 0,
            count: 0,
            names: 0,
            list: Vec::new(alloc),
        };
        let _ = headers.read_fields();
        for index in 0..headers.count {
            let Some(header) = headers.header(index) else {
                return Ok(headers);
            };
            headers.list.push(header)?;
        }
        Ok(headers)
    }

    /// Reads where the section headers are; `None` where there are none.
    fn read_fields(&mut self) -> Option<()> {
        let mut cursor = Cursor::new(self.file);
        let _ = cursor.take(40)?;
        self.e_shoff = cursor.u64()?;
        let _ = cursor.take(10)?;
        self.e_shentsize = cursor.u16()?;
        let count = u64::from(cursor.u16()?);
        let names = cursor.u16()?;
        if self.e_shoff == 0 {
            return None;
        }
        let first = self.header(0)?;
        self.count = if count == 0 { first.sh_size } else { count };
        self.names = if names == SHN_XINDEX {
            first.sh_link
        } else {
            u32::from(names)
        };
        Some(())
    }

    /// The header of an index; `None` where it isn't all there.
    fn header(&self, index: u64) -> Option<SectionHeader> {
        let passed = index.checked_mul(SHDR_SIZE)?;
        header_at(self.file, self.e_shoff.checked_add(passed)?)
    }

    /// The bytes of a section; none where they don't all lie in the file.
    fn bytes(&self, header: &SectionHeader) -> &'a [u8] {
        let mut cursor = Cursor::new(self.file);
        if header.sh_type == SHT_NOBITS || cursor.take(header.sh_offset as usize).is_none() {
            return &[];
        }
        cursor.take(header.sh_size as usize).unwrap_or(&[])
    }

    /// The name of a section; empty where it can't be read.
    pub fn name(&self, header: &SectionHeader) -> &'a [u8] {
        let names = match self.list.get(self.names as usize) {
            Some(names) if self.names != 0 => self.bytes(names),
            _ => return &[],
        };
        let mut cursor = Cursor::new(names);
        match cursor.take(header.sh_name as usize) {
            Some(_) => cursor.text().unwrap_or(&[]),
            None => &[],
        }
    }

    /// The first section of a name.
    pub fn named(&self, name: &str) -> Option<SectionHeader> {
        let mut headers = self.list.iter().copied();
        headers.find(|header| self.name(header) == name.as_bytes())
    }

    /// The bytes of the first section of a name; none where there is none.
    pub fn contents(&self, name: &str) -> &'a [u8] {
        match self.named(name) {
            Some(header) => self.bytes(&header),
            None => &[],
        }
    }

    /// The section that is loaded over an address.
    pub fn at(&self, address: u64) -> Option<SectionHeader> {
        let mut headers = self.list.iter().copied();
        headers.find(|header| header.holds(address))
    }

    /// An address lies in an executable section, or isn't 0 where no such section is known.
    pub fn may_be_code(&self, address: u64) -> bool {
        let mut is_known = false;
        for header in self.list.as_slice() {
            if header.has(SHF_ALLOC | SHF_EXECINSTR) {
                is_known = true;
                if header.holds(address) {
                    return true;
                }
            }
        }
        !is_known && address != 0
    }
}
