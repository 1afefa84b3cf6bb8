//! What a row of the matrix says of an address (section 6.2 of DWARF 5).

/// Where in the source an address comes from. `file` is a number of the table's list of files, from
/// 0 on; line 0 is no line of a source, and column 0 the left edge of a line (section 6.2.2).
#[derive(Clone, Copy, Debug, Default, PartialEq, Eq)]
pub struct Row {
    pub file: u64,
    pub line: u64,
    pub column: u64,
}
