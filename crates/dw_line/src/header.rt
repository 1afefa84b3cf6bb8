//! The header of a line table, by section 6.2.4 of DWARF 5.

ghost use Rattle.std.specs.Prelude.{◌<◌};

use crate::entry_list::EntryList;

mod parser;
mod same_rows;
mod table;

pub(crate) use parser::header_at;
pub(crate) use same_rows::have_same_rows;
pub use table::table_size;
pub(crate) use table::{TableBytes, table_at};

/// The fields of a header that are used, and the program after it.
#[derive(Debug, Drop)]
pub(crate) struct Header<'a> {
    /// The size of the smallest instruction of the machine, in bytes.
    pub(crate) minimum_instruction_length: u8,
    /// What a special opcode adds to the line register at least.
    pub(crate) line_base: i8,
    /// How many line advances special opcodes have; not 0.
    pub(crate) line_range: u8,
    /// The first special opcode; not 0.
    pub(crate) opcode_base: u8,
    /// How many operands each opcode from 1 on and below the first special one has.
    pub(crate) standard_opcode_lengths: &'a [u8],
    pub(crate) directories: EntryList<'a>,
    pub(crate) files: EntryList<'a>,
    pub(crate) program: &'a [u8],
    ghost some_line_range: { 0 < line_range },
}
