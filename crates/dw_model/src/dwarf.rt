//! Named numbers of DWARF version 5, by the sections that define them.

/// The version of the units whose contents are read (section 7.5.1).
pub const DWARF_VERSION: u16 = 5;

/// Bytes of an address on the machines that are read: `address_size` (section 7.5.1).
pub const ADDRESS_SIZE: u8 = 8;

/// Bytes of an offset in the 32-bit format (section 7.4).
pub const OFFSET_SIZE_32: usize = 4;

/// Bytes of an offset in the 64-bit format (section 7.4).
pub const OFFSET_SIZE_64: usize = 8;

/// Bytes of an initial length in the 32-bit format (section 7.4).
pub const LENGTH_SIZE_32: usize = 4;

/// Bytes of an initial length in the 64-bit format: the escape and eight more (section 7.4).
pub const LENGTH_SIZE_64: usize = 12;

/// The least of the unit lengths that are reserved, and no length of the 32-bit format
/// (section 7.2.2).
pub const DW_LENGTH_RESERVED: u32 = 0xffff_fff0;

/// The escape: it begins a unit length of the 64-bit format (section 7.4).
pub const DW_LENGTH_64BIT: u32 = 0xffff_ffff;

/// Unit type of a full compilation unit (section 7.5.1, table 7.2).
pub const DW_UT_COMPILE: u8 = 0x01;

/// Unit type of a partial unit (section 7.5.1, table 7.2).
pub const DW_UT_PARTIAL: u8 = 0x03;

/// Unit type of a skeleton unit (section 7.5.1, table 7.2).
pub const DW_UT_SKELETON: u8 = 0x04;

/// Bytes of a unit's `dwo_id`, which ends a skeleton unit's header (section 7.5.1.2).
pub const DWO_ID_SIZE: usize = 8;

// Tags (section 7.5.3, table 7.3).

/// A compilation unit.
pub const DW_TAG_compile_unit: u64 = 0x11;

/// A call of a function that was inlined.
pub const DW_TAG_inlined_subroutine: u64 = 0x1d;

/// A function.
pub const DW_TAG_subprogram: u64 = 0x2e;

/// A partial unit.
pub const DW_TAG_partial_unit: u64 = 0x3c;

/// A skeleton unit.
pub const DW_TAG_skeleton_unit: u64 = 0x4a;

// Attributes that are used (section 7.5.4, table 7.5).

/// The name as it is in the source.
pub const DW_AT_name: u64 = 0x03;

/// The offset of the unit's line table.
pub const DW_AT_stmt_list: u64 = 0x10;

/// The first address.
pub const DW_AT_low_pc: u64 = 0x11;

/// The address past the last one, or how many there are.
pub const DW_AT_high_pc: u64 = 0x12;

/// The directory in which the unit was compiled.
pub const DW_AT_comp_dir: u64 = 0x1b;

/// The entry of which this is an instance.
pub const DW_AT_abstract_origin: u64 = 0x31;

/// The declaration that this completes.
pub const DW_AT_specification: u64 = 0x47;

/// The list of the ranges of addresses.
pub const DW_AT_ranges: u64 = 0x55;

/// The column of a call that was inlined.
pub const DW_AT_call_column: u64 = 0x57;

/// The file of a call that was inlined.
pub const DW_AT_call_file: u64 = 0x58;

/// The line of a call that was inlined.
pub const DW_AT_call_line: u64 = 0x59;

/// The name that the linker knows.
pub const DW_AT_linkage_name: u64 = 0x6e;

/// The unit's first entry in .debug_str_offsets.
pub const DW_AT_str_offsets_base: u64 = 0x72;

/// The unit's first entry in .debug_addr.
pub const DW_AT_addr_base: u64 = 0x73;

/// The unit's first offset in .debug_rnglists.
pub const DW_AT_rnglists_base: u64 = 0x74;

// Forms (section 7.5.6, table 7.6).

/// An address.
pub const DW_FORM_addr: u64 = 0x01;

/// A block, its length in two bytes.
pub const DW_FORM_block2: u64 = 0x03;

/// A block, its length in four bytes.
pub const DW_FORM_block4: u64 = 0x04;

/// A constant of two bytes.
pub const DW_FORM_data2: u64 = 0x05;

/// A constant of four bytes.
pub const DW_FORM_data4: u64 = 0x06;

/// A constant of eight bytes.
pub const DW_FORM_data8: u64 = 0x07;

/// A text that is here.
pub const DW_FORM_string: u64 = 0x08;

/// A block, its length in LEB128.
pub const DW_FORM_block: u64 = 0x09;

/// A block, its length in a byte.
pub const DW_FORM_block1: u64 = 0x0a;

/// A constant of a byte.
pub const DW_FORM_data1: u64 = 0x0b;

/// A flag in a byte.
pub const DW_FORM_flag: u64 = 0x0c;

/// A signed constant in LEB128.
pub const DW_FORM_sdata: u64 = 0x0d;

/// The offset of a text in .debug_str.
pub const DW_FORM_strp: u64 = 0x0e;

/// An unsigned constant in LEB128.
pub const DW_FORM_udata: u64 = 0x0f;

/// The offset of an entry in .debug_info.
pub const DW_FORM_ref_addr: u64 = 0x10;

/// The offset of an entry in its unit, in a byte.
pub const DW_FORM_ref1: u64 = 0x11;

/// The same in two bytes.
pub const DW_FORM_ref2: u64 = 0x12;

/// The same in four bytes.
pub const DW_FORM_ref4: u64 = 0x13;

/// The same in eight bytes.
pub const DW_FORM_ref8: u64 = 0x14;

/// The same in LEB128.
pub const DW_FORM_ref_udata: u64 = 0x15;

/// A form in LEB128, and then a value of that form.
pub const DW_FORM_indirect: u64 = 0x16;

/// An offset in another section.
pub const DW_FORM_sec_offset: u64 = 0x17;

/// An expression, its length in LEB128.
pub const DW_FORM_exprloc: u64 = 0x18;

/// A flag that is set by being there.
pub const DW_FORM_flag_present: u64 = 0x19;

/// The index of a text, in LEB128.
pub const DW_FORM_strx: u64 = 0x1a;

/// The index of an address, in LEB128.
pub const DW_FORM_addrx: u64 = 0x1b;

/// An entry of a supplementary file, in four bytes.
pub const DW_FORM_ref_sup4: u64 = 0x1c;

/// A text of a supplementary file.
pub const DW_FORM_strp_sup: u64 = 0x1d;

/// A constant of sixteen bytes.
pub const DW_FORM_data16: u64 = 0x1e;

/// The offset of a text in .debug_line_str.
pub const DW_FORM_line_strp: u64 = 0x1f;

/// The signature of a type unit.
pub const DW_FORM_ref_sig8: u64 = 0x20;

/// A constant that is in the declaration.
pub const DW_FORM_implicit_const: u64 = 0x21;

/// The index of a location list.
pub const DW_FORM_loclistx: u64 = 0x22;

/// The index of a range list.
pub const DW_FORM_rnglistx: u64 = 0x23;

/// An entry of a supplementary file, in eight bytes.
pub const DW_FORM_ref_sup8: u64 = 0x24;

/// The index of a text, in a byte.
pub const DW_FORM_strx1: u64 = 0x25;

/// The index of a text, in two bytes.
pub const DW_FORM_strx2: u64 = 0x26;

/// The index of a text, in three bytes.
pub const DW_FORM_strx3: u64 = 0x27;

/// The index of a text, in four bytes.
pub const DW_FORM_strx4: u64 = 0x28;

/// The index of an address, in a byte.
pub const DW_FORM_addrx1: u64 = 0x29;

/// The index of an address, in two bytes.
pub const DW_FORM_addrx2: u64 = 0x2a;

/// The index of an address, in three bytes.
pub const DW_FORM_addrx3: u64 = 0x2b;

/// The index of an address, in four bytes.
pub const DW_FORM_addrx4: u64 = 0x2c;

/// An entry of a supplementary file. Not of the standard: a vendor's.
pub const DW_FORM_GNU_ref_alt: u64 = 0x1f20;

/// A text of a supplementary file. Not of the standard: a vendor's.
pub const DW_FORM_GNU_strp_alt: u64 = 0x1f21;

// Entries of range lists (section 7.25, table 7.30).

/// The list ends.
pub const DW_RLE_end_of_list: u8 = 0x00;

/// The base becomes the address of an index.
pub const DW_RLE_base_addressx: u8 = 0x01;

/// A range between the addresses of two indexes.
pub const DW_RLE_startx_endx: u8 = 0x02;

/// A range from the address of an index, and its length.
pub const DW_RLE_startx_length: u8 = 0x03;

/// A range between two offsets from the base.
pub const DW_RLE_offset_pair: u8 = 0x04;

/// The base becomes an address.
pub const DW_RLE_base_address: u8 = 0x05;

/// A range between two addresses.
pub const DW_RLE_start_end: u8 = 0x06;

/// A range from an address, and its length.
pub const DW_RLE_start_length: u8 = 0x07;

// Standard opcodes of line programs (section 7.22, table 7.25).

/// Appends a row.
pub const DW_LNS_copy: u8 = 0x01;

/// Advances the address.
pub const DW_LNS_advance_pc: u8 = 0x02;

/// Advances the line.
pub const DW_LNS_advance_line: u8 = 0x03;

/// Sets the file.
pub const DW_LNS_set_file: u8 = 0x04;

/// Sets the column.
pub const DW_LNS_set_column: u8 = 0x05;

/// Turns a register that isn't kept.
pub const DW_LNS_negate_stmt: u8 = 0x06;

/// Sets a register that isn't kept.
pub const DW_LNS_set_basic_block: u8 = 0x07;

/// Advances the address as special opcode 255 does.
pub const DW_LNS_const_add_pc: u8 = 0x08;

/// Advances the address by an operand of two bytes.
pub const DW_LNS_fixed_advance_pc: u8 = 0x09;

/// Sets a register that isn't kept.
pub const DW_LNS_set_prologue_end: u8 = 0x0a;

/// Sets a register that isn't kept.
pub const DW_LNS_set_epilogue_begin: u8 = 0x0b;

/// Sets a register that isn't kept.
pub const DW_LNS_set_isa: u8 = 0x0c;

// Extended opcodes of line programs (section 7.22, table 7.26).

/// The byte that begins an extended opcode (section 6.2.5.3). The name is ours.
pub const DW_LNS_extended: u8 = 0x00;

/// Appends a row that ends the sequence.
pub const DW_LNE_end_sequence: u8 = 0x01;

/// Sets the address.
pub const DW_LNE_set_address: u8 = 0x02;

// Content types of a line table's entries (section 7.22, table 7.27).

/// A path.
pub const DW_LNCT_path: u64 = 0x01;

/// The directory of a file.
pub const DW_LNCT_directory_index: u64 = 0x02;
