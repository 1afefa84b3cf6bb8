//! The layout of an ELF64 file: its header, the section header table, and the names of sections.

ghost use Rattle.std.specs.Prelude.{◌≡◌, suc, length, take, Some, option_map, option_copied, IfSome, IfNone, bytes_eq};
ghost use Rattle.std.specs.Option.{option_eq};
ghost use Rattle.dw_model.specs.Reading.{start};
ghost use Rattle.dw_model.specs.Elf.{part};
ghost use Rattle.dw_model.specs.Elf as model;
ghost use Rattle.dw_model.specs.Answers.{Reads};
ghost use Rattle.dw_elf.specs.Layout.{file_header_of, section_header_of, table_shown, first_text};

use dw_bytes::Cursor;
use dw_model::elf::{SHDR_SIZE, SHN_UNDEF, SHN_XINDEX, SHT_NOBITS};

/// The fields of the file header that are used, by their standard names (section 3).
#[derive(Debug, Drop)]
pub struct FileHeader<'a> {
    pub magic: &'a [u8],
    pub class: u8,
    pub encoding: u8,
    pub e_type: u16,
    pub e_shoff: u64,
    pub e_shentsize: u16,
    pub e_shnum: u16,
    pub e_shstrndx: u16,
}

/// The fields of a section header that are used, by their standard names (section 4).
#[derive(Clone, Copy, Debug)]
pub struct SectionHeader {
    pub sh_name: u32,
    pub sh_type: u32,
    pub sh_flags: u64,
    pub sh_offset: u64,
    pub sh_size: u64,
    pub sh_link: u32,
}

/// The section header table: `count` headers, and the bytes of the section that has the names.
#[derive(Clone, Copy, Debug)]
pub struct Table<'a> {
    pub headers: &'a [u8],
    pub count: u64,
    pub names: &'a [u8],
}

impl SectionHeader {
    /// The section takes no bytes of the file.
    pub fn takes_nothing(&self) -> bool
        ensures { result ≡ model.takes_nothing (section_header_of self.now) }
    {
        self.sh_type == SHT_NOBITS || self.sh_size == 0
    }
}

impl Table<'_> {
    /// A table of no headers.
    #[tactic(auto, unfolding(dw_model::specs::Elf::section_headers))]
    pub fn empty() -> Self
        ensures { table_shown result ≡ model.no_sections }
    {
        Table {
            headers: &[],
            count: 0,
            names: &[],
        }
    }
}

/// The header of a file. `None` where the file is shorter.
#[tactic(auto, unfolding(dw_model::specs::Elf::file_header))]
pub fn file_header<'a>(file: &'a [u8]) -> Option<FileHeader<'a>>
    ensures { option_map file_header_of result ≡ model.file_header file.now }
{
    let mut cursor = Cursor::new(file);
    let magic = cursor.take(4)?;
    let class = cursor.u8()?;
    let encoding = cursor.u8()?;
    cursor.take(10)?;
    let e_type = cursor.u16()?;
    let _e_machine = cursor.u16()?;
    let _e_version = cursor.u32()?;
    let _e_entry = cursor.u64()?;
    let _e_phoff = cursor.u64()?;
    let e_shoff = cursor.u64()?;
    let _e_flags = cursor.u32()?;
    let _e_ehsize = cursor.u16()?;
    let _e_phentsize = cursor.u16()?;
    let _e_phnum = cursor.u16()?;
    let e_shentsize = cursor.u16()?;
    let e_shnum = cursor.u16()?;
    let e_shstrndx = cursor.u16()?;
    Some(FileHeader {
        magic,
        class,
        encoding,
        e_type,
        e_shoff,
        e_shentsize,
        e_shnum,
        e_shstrndx,
    })
}

/// The section header at the cursor.
#[tactic(auto, unfolding(dw_model::specs::Elf::section_header_at))]
pub fn section_header(cursor: &mut Cursor<'_>) -> Option<SectionHeader>
    ensures found { IfSome result (λ header. model.section_header_at cursor.old
        ≡ Some (section_header_of header, cursor.new)) }
    ensures none { IfNone result (model.section_header_at cursor.old ≡ None) }
{
    let sh_name = cursor.u32()?;
    let sh_type = cursor.u32()?;
    let sh_flags = cursor.u64()?;
    let _sh_addr = cursor.u64()?;
    let sh_offset = cursor.u64()?;
    let sh_size = cursor.u64()?;
    let sh_link = cursor.u32()?;
    let _sh_info = cursor.u32()?;
    let _sh_addralign = cursor.u64()?;
    let _sh_entsize = cursor.u64()?;
    Some(SectionHeader {
        sh_name,
        sh_type,
        sh_flags,
        sh_offset,
        sh_size,
        sh_link,
    })
}

/// The bytes of the file from an offset on, where they lie in the file.
pub fn part<'a>(file: &'a [u8], offset: u64, size: u64) -> Option<&'a [u8]>
    ensures bytes { option_copied result ≡ part file.now offset size }
    ensures len { IfSome result (λ bytes. length bytes.now ≡ size) }
{
    let len = file.len() as u64;
    if offset > len || size > len - offset {
        return None;
    }
    let (_, rest) = file.split_at(offset as usize);
    Some(rest.split_at(size as usize).0)
}

/// The bytes that a section header gives, where they lie in the file. A section of type
/// `SHT_NOBITS` and one of size 0 have none, and lie in every file.
#[tactic(auto, unfolding(dw_model::specs::Elf::contents))]
pub fn contents<'a>(file: &'a [u8], header: &SectionHeader) -> Option<&'a [u8]>
    ensures { option_copied result ≡ model.contents file.now (section_header_of header.now) }
{
    if header.takes_nothing() {
        return Some(&[]);
    }
    part(file, header.sh_offset, header.sh_size)
}

/// The names of the sections, from the section of this index.
#[tactic(auto, unfolding(dw_model::specs::Elf::names_at))]
fn names_at<'a>(file: &'a [u8], headers: &'a [u8], index: u32) -> Option<&'a [u8]>
    ensures { option_copied result ≡ model.names_at file.now headers.now index }
{
    if index == SHN_UNDEF {
        return Some(&[]);
    }
    let bytes = part(headers, SHDR_SIZE * u64::from(index), SHDR_SIZE)?;
    let header = section_header(&mut Cursor::new(bytes))?;
    contents(file, &header)
}

/// The table that the file header names. `None` where it, or the section with the names, isn't in
/// the file.
#[tactic(auto, unfolding(dw_model::specs::Elf::table_at))]
pub fn table_at<'a>(file: &'a [u8], header: &FileHeader<'a>) -> Option<Table<'a>>
    ensures { option_map table_shown result ≡ model.table_at file.now (file_header_of header.now) }
{
    if u64::from(header.e_shentsize) != SHDR_SIZE {
        return None;
    }
    let bytes = part(file, header.e_shoff, SHDR_SIZE)?;
    let first = section_header(&mut Cursor::new(bytes))?;
    let count = if header.e_shnum == 0 {
        first.sh_size
    } else {
        u64::from(header.e_shnum)
    };
    if count == 0 {
        return Some(Table::empty());
    }
    let headers = part(file, header.e_shoff, SHDR_SIZE.checked_mul(count)?)?;
    let index = if header.e_shstrndx == SHN_XINDEX {
        first.sh_link
    } else {
        u32::from(header.e_shstrndx)
    };
    let names = names_at(file, headers, index)?;
    Some(Table {
        headers,
        count,
        names,
    })
}

/// The front of some bytes in which a text of this length ends, if they begin with one.
fn front(bytes: &[u8], len: usize) -> &[u8]
    ensures { result.now ≡ take (suc len) bytes.now }
{
    if bytes.len() <= len {
        return bytes;
    }
    bytes.split_at(len + 1).0
}

/// Whether some bytes begin with this text and a zero byte. It looks at no byte after those that
/// the text and its zero byte would take.
fn begins_with(bytes: &[u8], text: &[u8]) -> bool
    ensures { result ≡ option_eq bytes_eq (first_text bytes.now) (Some text.now) }
{
    match Cursor::new(front(bytes, text.len())).text() {
        None => false,
        Some(found) => found == text,
    }
}

/// Whether a section has this name. One whose name can't be read has none.
#[tactic(auto, unfolding(dw_model::specs::Elf::has_name, dw_model::specs::Elf::name_of))]
fn has_name(name: &str, names: &[u8], header: &SectionHeader) -> bool
    ensures { result ≡ model.has_name name.now names.now (section_header_of header.now) }
{
    match names.get(header.sh_name as usize..) {
        None => false,
        Some(rest) => begins_with(rest, name.as_bytes()),
    }
}

/// The first header of a name.
#[tactic(auto, unfolding(dw_model::specs::Elf::header_named))]
pub fn header_named(name: &str, table: &Table<'_>) -> Option<SectionHeader>
    ensures { option_map section_header_of result ≡ model.header_named name.now (table_shown table.now) }
{
    let mut cursor = Cursor::new(table.headers);
    for _ in 0..table.count {
        let header = section_header(&mut cursor)?;
        if has_name(name, table.names, &header) {
            return Some(header);
        }
    }
    None
}
