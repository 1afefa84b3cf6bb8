//! ELF files of a few sections, and the file that most tests read.

use dw_elf::Name;
use std::alloc::{AllocError, Global};
use std::test::Fail;

/// Three units. The one at 0 covers 0x401000 to 0x40100e: its function `main` at 0x23 has `mid` at
/// 0x36 inlined, in a block, and that has `leaf` at 0x47 inlined. The one at 0x5b is partial and
/// has the entry of `mid`. The one at 0x6e covers 0x500000 to 0x500004 and has no functions and no
/// rows. The last byte is at 0x8b.
pub const INFO: &[u8] = &[
    0x57, 0, 0, 0, 5, 0, 1, 8, 0, 0, 0, 0, 1, 0, 0, 0, 0, 0, 0x10, 0x40, 0, 0, 0, 0, 0, 0x0e, 0, 0,
    0, 3, 0x6c, 0x65, 0x61, 0x66, 0, 2, 0x6d, 0x61, 0x69, 0x6e, 0, 0, 0x10, 0x40, 0, 0, 0, 0, 0,
    0x0e, 0, 0, 0, 4, 5, 0x68, 0, 0, 0, 2, 0x10, 0x40, 0, 0, 0, 0, 0, 6, 0, 0x14, 7, 6, 0x1d, 0, 0,
    0, 4, 0x10, 0x40, 0, 0, 0, 0, 0, 2, 1, 0x1e, 0, 0, 0, 0, 0x0f, 0, 0, 0, 5, 0, 3, 8, 0, 0, 0, 0,
    7, 3, 0x6d, 0x69, 0x64, 0, 0, 0x1a, 0, 0, 0, 5, 0, 1, 8, 0, 0, 0, 0, 1, 0, 0, 0, 0, 0, 0, 0x50,
    0, 0, 0, 0, 0, 4, 0, 0, 0, 0,
];

/// The declarations of these units.
pub const ABBREVS: &[u8] = &[
    1, 0x11, 1, 0x10, 0x17, 0x11, 1, 0x12, 6, 0, 0, 2, 0x2e, 1, 3, 8, 0x11, 1, 0x12, 6, 0, 0, 3,
    0x2e, 0, 3, 8, 0, 0, 4, 0x0b, 1, 0, 0, 5, 0x1d, 1, 0x31, 0x10, 0x11, 1, 0x12, 0x0b, 0x58, 0x0b,
    0x59, 0x0b, 0x57, 0x0b, 0, 0, 6, 0x1d, 0, 0x31, 0x13, 0x11, 1, 0x12, 0x0b, 0x58, 0x0b, 0x59,
    0x0b, 0, 0, 7, 0x3c, 1, 0, 0, 0,
];

/// The header of a line table after its length, with directory 0 `/w`, file 0 `z.c` and file 1
/// `a.c`: instructions of 1 byte, line_base -5, line_range 14, opcode_base 13.
pub const HEADER: &[u8] = &[
    5, 0, 8, 0, 0x29, 0, 0, 0, 1, 1, 1, 0xfb, 0x0e, 0x0d, 0, 1, 1, 1, 1, 0, 0, 0, 1, 0, 0, 1, 1, 1,
    8, 1, b'/', b'w', 0, 2, 1, 8, 2, 0x0b, 2, b'z', b'.', b'c', 0, 0, b'a', b'.', b'c', 0, 0,
];

/// 0x401000 line 3, 0x401004 line 4, end 0x40100e.
pub const TWO_ROWS: &[u8] = &[
    0, 9, 2, 0, 0x10, 0x40, 0, 0, 0, 0, 0, 0x14, 0x4b, 2, 0x0a, 0, 1, 1,
];

/// Bytes of a file header, and of a section header.
const HEADER_SIZE: usize = 64;

/// The types of sections with bytes of a program, and with texts.
const PROGBITS: u32 = 1;

const STRTAB: u32 = 3;

/// A section header: where its name begins among the names, its type, and where its bytes are.
fn push_header(
    headers: &mut Vec<u8>,
    name: usize,
    kind: u32,
    offset: usize,
    size: usize,
) -> Result<(), AllocError> {
    headers.extend_from_slice(&u32::try_from(name).unwrap_or(0).to_le_bytes())?;
    headers.extend_from_slice(&kind.to_le_bytes())?;
    headers.extend_from_slice(&[0; 16])?;
    headers.extend_from_slice(&(offset as u64).to_le_bytes())?;
    headers.extend_from_slice(&(size as u64).to_le_bytes())?;
    headers.extend_from_slice(&[0; 24])
}

/// The header of an executable file with so many section headers after it, the last of which has
/// the names.
fn file_header(alloc: Global, count: usize) -> Result<Vec<u8>, AllocError> {
    let count = u16::try_from(count).unwrap_or(0);
    let mut file = Vec::new(alloc);
    file.extend_from_slice(&[0x7f, b'E', b'L', b'F', 2, 1, 1, 0, 0, 0, 0, 0, 0, 0, 0, 0])?;
    file.extend_from_slice(&[2, 0, 0x3e, 0, 1, 0, 0, 0])?;
    file.extend_from_slice(&[0; 16])?;
    file.extend_from_slice(&(HEADER_SIZE as u64).to_le_bytes())?;
    file.extend_from_slice(&[0, 0, 0, 0, 64, 0, 0, 0, 0, 0, 64, 0])?;
    file.extend_from_slice(&count.to_le_bytes())?;
    file.extend_from_slice(&count.saturating_sub(1).to_le_bytes())?;
    Ok(file)
}

/// An ELF file of these sections: its header, the section headers, the sections, and the names.
pub fn elf(alloc: Global, sections: &[(Name, &[u8])]) -> Result<Vec<u8>, AllocError> {
    let count = sections.len().saturating_add(2);
    let begin = count.saturating_add(1).saturating_mul(HEADER_SIZE);
    let mut headers = Vec::new(alloc);
    let mut bytes = Vec::new(alloc);
    let mut names = vec![in alloc; 0]?;
    push_header(&mut headers, 0, 0, 0, 0)?;
    for (name, section) in sections {
        let offset = begin.saturating_add(bytes.len());
        push_header(&mut headers, names.len(), PROGBITS, offset, section.len())?;
        bytes.extend_from_slice(section)?;
        names.extend_from_slice(name.text().as_bytes())?;
        names.push(0)?;
    }
    let offset = begin.saturating_add(bytes.len());
    push_header(&mut headers, 0, STRTAB, offset, names.len())?;
    let mut file = file_header(alloc, count)?;
    file.extend_from_slice(&headers)?;
    file.extend_from_slice(&bytes)?;
    file.extend_from_slice(&names)?;
    Ok(file)
}

/// An ELF file of units and their declarations.
pub fn file_of(alloc: Global, info: &[u8], abbrevs: &[u8]) -> Result<Vec<u8>, AllocError> {
    elf(
        alloc,
        &[(Name::DebugInfo, info), (Name::DebugAbbrev, abbrevs)],
    )
}

/// The same with the rows of `main`: 0x401000 line 3, 0x401004 line 4, in a file 1 of path
/// `/w/a.c`.
pub fn with_lines(alloc: Global, info: &[u8], abbrevs: &[u8]) -> Result<Vec<u8>, AllocError> {
    let lines = line_table(alloc, HEADER, TWO_ROWS)?;
    elf(
        alloc,
        &[
            (Name::DebugInfo, info),
            (Name::DebugAbbrev, abbrevs),
            (Name::DebugLine, &lines),
        ],
    )
}

/// The file that most tests read.
pub fn sample(alloc: Global) -> Result<Vec<u8>, AllocError> {
    with_lines(alloc, INFO, ABBREVS)
}

/// Adds a compile unit with these bytes after its header, whose declarations are at 0.
pub fn push_unit(info: &mut Vec<u8>, entries: &[u8]) -> Result<(), AllocError> {
    let size = u32::try_from(entries.len().saturating_add(8)).unwrap_or(0);
    info.extend_from_slice(&size.to_le_bytes())?;
    info.extend_from_slice(&[5, 0, 1, 8, 0, 0, 0, 0])?;
    info.extend_from_slice(entries)
}

/// One compile unit with these bytes after its header. Its first entry is at 12.
pub fn unit_of(alloc: Global, entries: &[u8]) -> Result<Vec<u8>, AllocError> {
    let mut info = Vec::new(alloc);
    push_unit(&mut info, entries)?;
    Ok(info)
}

/// A line table of a header and a program, with its length before them.
pub fn line_table(alloc: Global, header: &[u8], program: &[u8]) -> Result<Vec<u8>, AllocError> {
    let mut table = Vec::new(alloc);
    let size = u32::try_from(header.len().saturating_add(program.len())).unwrap_or(0);
    table.extend_from_slice(&size.to_le_bytes())?;
    table.extend_from_slice(header)?;
    table.extend_from_slice(program)?;
    Ok(table)
}

/// Bytes with another one at an offset.
pub fn poked(alloc: Global, bytes: &[u8], at: usize, new: u8) -> Result<Vec<u8>, Fail> {
    let mut poked = Vec::from_slice(alloc, bytes)?;
    let place = poked.get_mut(at).ok_or("a place among the bytes")?;
    *place = new;
    Ok(poked)
}
