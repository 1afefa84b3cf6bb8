//! Named numbers of ELF64 (ELF-64 Object File Format, version 1.5).

/// `e_ident[EI_MAG0]` to `e_ident[EI_MAG3]`: every ELF file begins with these bytes (section 3).
pub const ELFMAG: [u8; 4] = [0x7f, 0x45, 0x4c, 0x46];

/// `e_ident[EI_CLASS]` of a file with 64-bit objects (section 3).
pub const ELFCLASS64: u8 = 2;

/// `e_ident[EI_DATA]` of a file whose numbers have their lowest byte first (section 3).
pub const ELFDATA2LSB: u8 = 1;

/// `e_type` of a relocatable object file (section 3).
pub const ET_REL: u16 = 1;

/// Bytes of one entry of the section header table: the size of `Elf64_Shdr` (section 4).
pub const SHDR_SIZE: u64 = 64;

/// The index of no section (section 4).
pub const SHN_UNDEF: u32 = 0;

/// `e_shstrndx` where the index is too large for it and is in `sh_link` of header 0
/// (System V ABI, chapter 4, special section indexes).
pub const SHN_XINDEX: u16 = 0xffff;

/// `sh_type` of a section that takes no bytes of the file (section 4).
pub const SHT_NOBITS: u32 = 8;

/// Bit of `sh_flags` on a section whose bytes are compressed (System V ABI, chapter 4, section
/// compression).
pub const SHF_COMPRESSED: u64 = 0x800;
