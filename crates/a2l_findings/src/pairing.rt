//! How a file is tied to its debug information: by a link to another file, by its build id, or by a
//! supplementary file.

use crate::section_headers::SectionHeaders;
use dw_bytes::Cursor;

/// The type of the note that has the build id, whose owner is GNU.
const NT_GNU_BUILD_ID: u32 = 3;

/// The text with which a section begins.
pub fn text_in(section: &[u8]) -> Option<&[u8]> {
    Cursor::new(section).text()
}

/// The name of the supplementary file in .debug_sup, which begins with a version and a flag (DWARF
/// 5, section 7.3.6).
fn sup_name(section: &[u8]) -> Option<&[u8]> {
    let mut cursor = Cursor::new(section);
    let _version = cursor.u16()?;
    let is_supplementary = cursor.u8()?;
    if is_supplementary != 0 {
        return None;
    }
    cursor.text()
}

/// The build id in a section of notes.
pub fn build_id_in(section: &[u8]) -> Option<&[u8]> {
    let mut cursor = Cursor::new(section);
    for _ in 0..section.len() {
        let owner_size = cursor.u32()? as usize;
        let size = cursor.u32()? as usize;
        let note_type = cursor.u32()?;
        let owner = cursor.take(owner_size)?;
        let _ = cursor.take((4 - owner_size % 4) % 4)?;
        let described = cursor.take(size)?;
        if note_type == NT_GNU_BUILD_ID && owner == b"GNU\0".as_slice() {
            return Some(described);
        }
        let _ = cursor.take((4 - size % 4) % 4)?;
    }
    None
}

/// The name of the supplementary file, of .gnu_debugaltlink or .debug_sup.
pub fn supplementary<'a>(headers: &SectionHeaders<'a>) -> Option<&'a [u8]> {
    text_in(headers.contents(".gnu_debugaltlink")).or(sup_name(headers.contents(".debug_sup")))
}
