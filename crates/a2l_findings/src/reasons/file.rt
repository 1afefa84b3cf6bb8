//! Why the header of a file, its section header table or a section can't be taken.

use crate::note::Words;
use crate::reasons::reason::{Found, Read, Spot, Stop, Wanted};
use crate::section_headers::SectionHeaders;
use dw_bytes::Cursor;
use dw_elf::Name;
use dw_model::elf::{ELFCLASS64, ELFDATA2LSB, ELFMAG, SHDR_SIZE};
use std::alloc::Global;

/// The first bytes of files that aren't ELF, and what these are.
static KINDS: [(&[u8], &str); 4] = [
    (b"!<arch>\n", ", an archive of objects"),
    (b"MZ", ", a program of Windows"),
    (b"\xcf\xfa\xed\xfe", ", a program of macOS"),
    (b"#!", ", a script"),
];

/// The bytes after the magic number: the name of each, what is wanted, that in words, and another
/// value with its meaning.
static IDENT: [(&str, u8, &str, u8, &str); 2] = [
    ("e_ident[EI_CLASS]", ELFCLASS64, "2 (64 bits)", 1, "32 bits"),
    (
        "e_ident[EI_DATA]",
        ELFDATA2LSB,
        "1 (little-endian)",
        2,
        "big-endian",
    ),
];

/// What a file that isn't ELF looks like by its first bytes.
fn kind_of(file: &[u8]) -> Words {
    for (begin, kind) in &KINDS {
        if file.starts_with(begin) {
            return kind;
        }
    }
    ""
}

/// Why a file isn't an ELF file.
pub(super) fn magic_reason(file: &[u8]) -> Read<()> {
    let spot = Spot::FileHeader;
    let len = file.len();
    if file.starts_with(&ELFMAG) {
        let wanted = Wanted::Words("64 bytes at least");
        return Err(spot.stop("its length", Found::Bytes(len), wanted));
    }
    let found = match Cursor::new(file).u32() {
        Some(front) => Found::Magic(front.swap_bytes(), kind_of(file)),
        None => Found::CutFile(len),
    };
    let wanted = Wanted::Words("0x7f454c46, which begins each ELF file");
    Err(spot.stop("the magic number", found, wanted))
}

/// Why a file isn't of 64 bits, or not little-endian.
pub(super) fn class_reason(file: &[u8]) -> Read<()> {
    let mut cursor = Cursor::new(file);
    let _ = cursor.take(ELFMAG.len());
    for (field, wanted, text, other, meaning) in &IDENT {
        let Some(number) = cursor.u8() else {
            return Ok(());
        };
        if number == *wanted {
            continue;
        }
        let found = if number == *other {
            Found::Named(u64::from(number), meaning)
        } else {
            Found::Number(u64::from(number))
        };
        return Err(Spot::FileHeader.stop(field, found, Wanted::Words(text)));
    }
    Ok(())
}

/// Why a file isn't linked.
pub(super) fn type_reason() -> Read<()> {
    let wanted = Wanted::Words("2 (a program) or 3 (a shared object)");
    let found = Found::Named(1, "a relocatable object");
    Err(Spot::FileHeader.stop("e_type", found, wanted))
}

/// A stop at an offset and a size that don't lie in a file.
fn outside(spot: Spot, field: Words, offset: u64, size: u64, file: &[u8]) -> Stop {
    let wanted = Wanted::Within("the file", file.len());
    spot.stop(field, Found::Piece(offset, size), wanted)
}

/// Why the section of names can't be taken.
fn names_reason(file: &[u8], headers: &SectionHeaders<'_>) -> Read<()> {
    if headers.names == 0 {
        return Ok(());
    }
    let index = u64::from(headers.names);
    if index >= headers.count {
        let wanted = Wanted::Section(headers.count);
        return Err(Spot::SectionTable.stop("e_shstrndx", Found::Number(index), wanted));
    }
    match headers.list.get(headers.names as usize) {
        Some(header) => {
            let field = "sh_offset of the section of names";
            let (offset, size) = (header.sh_offset, header.sh_size);
            Err(outside(Spot::SectionTable, field, offset, size, file))
        }
        None => Ok(()),
    }
}

/// Why the section header table can't be taken.
pub(super) fn table_reason(alloc: Global, file: &[u8]) -> Read<()> {
    let spot = Spot::FileHeader;
    let headers = SectionHeaders::read(alloc, file)?;
    let size = u64::from(headers.e_shentsize);
    if size != SHDR_SIZE {
        return Err(spot.stop("e_shentsize", Found::Number(size), Wanted::Words("64")));
    }
    if headers.list.is_empty() {
        return Err(outside(spot, "e_shoff", headers.e_shoff, SHDR_SIZE, file));
    }
    let Some(size) = headers.count.checked_mul(SHDR_SIZE) else {
        let wanted = Wanted::Words("as many as the file has room for");
        let found = Found::Number(headers.count);
        return Err(Spot::SectionTable.stop("the number of sections", found, wanted));
    };
    // The first header lies in the file, so the table begins in it.
    if size > (file.len() as u64).saturating_sub(headers.e_shoff) {
        return Err(outside(spot, "e_shoff", headers.e_shoff, size, file));
    }
    names_reason(file, &headers)
}

/// Why a section doesn't lie in its file.
pub(super) fn range_reason(alloc: Global, file: &[u8], name: Name) -> Read<()> {
    let Some(header) = SectionHeaders::read(alloc, file)?.named(name.text()) else {
        return Ok(());
    };
    let spot = Spot::SectionHeader(name.text());
    Err(outside(spot, "sh_offset", header.sh_offset, header.sh_size, file))
}

/// How a section is compressed.
pub(super) fn compressed_reason(alloc: Global, file: &[u8], name: Name) -> Read<()> {
    let spot = Spot::SectionHeader(name.text());
    let Some(header) = SectionHeaders::read(alloc, file)?.named(name.text()) else {
        let found = Found::Words(name.compressed_text());
        return Err(spot.stop("its name", found, Wanted::Words(name.text())));
    };
    let wanted = Wanted::Words("without 0x800 (SHF_COMPRESSED)");
    Err(spot.stop("sh_flags", Found::Offset(header.sh_flags), wanted))
}
