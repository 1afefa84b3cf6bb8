//! Which line tables have the same rows, since they run the same bytes in the same way.

ghost use Rattle.std.specs.Prelude.{◌≡◌, true};
ghost use Rattle.dw_line.specs.Header.{header_shown, IsHeaderAt};

use crate::header::{Header, table_at};

/// Whether two headers run a program in the same way.
fn run_alike(one: &Header<'_>, other: &Header<'_>) -> bool
    ensures { result ≡ true → one.now.program.now ≡ other.now.program.now
        → header_shown one.now ≡ header_shown other.now }
{
    one.minimum_instruction_length == other.minimum_instruction_length
        && one.line_base == other.line_base
        && one.line_range == other.line_range
        && one.opcode_base == other.opcode_base
        && one.standard_opcode_lengths == other.standard_opcode_lengths
}

/// Whether the tables at two offsets of .debug_line, whose headers these are, have the same bytes
/// as their programs, and run them in the same way: then they have the same rows.
#[tactic(auto, using(crate::proofs::SizeLemmas::same_programs))]
pub(crate) fn have_same_rows(
    section: &[u8],
    one: &Header<'_>,
    offset: u64,
    other: &Header<'_>,
    other_offset: u64,
) -> bool
    ensures { result ≡ true → IsHeaderAt section.now offset one.now → IsHeaderAt section.now other_offset other.now
        → header_shown one.now ≡ header_shown other.now }
{
    if one.program.len() != other.program.len() {
        return false;
    }
    let Some(table) = table_at(section, offset) else {
        return false;
    };
    let Some(other_table) = table_at(section, other_offset) else {
        return false;
    };
    table.end == other_table.end && run_alike(one, other)
}
