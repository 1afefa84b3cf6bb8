//! The bytes of a line table, by section 6.2.4 of DWARF 5.

ghost use Rattle.std.specs.Prelude.{◌≡◌, ◌≤◌, length, option_map};
ghost use Rattle.dw_bytes.specs.Width.{size_of};
ghost use Rattle.dw_line.specs.TableAt.{table_at, table_size};

use dw_bytes::{Cursor, Initial, Width};

/// A table without its length.
#[derive(Clone, Copy, Debug)]
pub(crate) struct TableBytes<'a> {
    pub(crate) bytes: &'a [u8],
    /// The width of offsets in them.
    pub(crate) width: Width,
    /// Where they end, as an offset of .debug_line.
    pub(crate) end: usize,
}

/// The bytes of the table at an offset of .debug_line; `None` where they aren't there.
#[tactic(auto, using(crate::proofs::HeaderLemmas::no_table), unfolding(crate::specs::TableAt::table_at))]
pub(crate) fn table_at<'a>(section: &'a [u8], offset: u64) -> Option<TableBytes<'a>>
    ensures { option_map (λ found. (found.bytes.now, size_of found.width, found.end)) result
        ≡ table_at section.now offset }
{
    if offset > section.len() as u64 {
        return None;
    }
    let mut cursor = Cursor::new(section);
    let _passed = cursor.take(offset as usize)?;
    let Initial::Bytes(unit_length, width) = cursor.initial_length()? else {
        return None;
    };
    let bytes = cursor.take(unit_length as usize)?;
    let end = cursor.at();
    Some(TableBytes { bytes, width, end })
}

/// How many bytes the table at an offset of .debug_line has, without its length; 0 where they
/// aren't there. Tables that lie side by side have no more bytes together than the section.
pub fn table_size(section: &[u8], offset: u64) -> usize
    ensures size { result ≡ table_size section.now offset }
    ensures within { result ≤ length section.now }
{
    match table_at(section, offset) {
        Some(table) => table.bytes.len(),
        None => 0,
    }
}
