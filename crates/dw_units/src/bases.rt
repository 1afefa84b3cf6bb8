//! Where a unit's entries begin in the sections that units share, by sections 7.26 to 7.28 of DWARF
//! 5.

ghost use Rattle.std.specs.Prelude.{◌≡◌, option_map};
ghost use Rattle.dw_model.specs.Text as model;
ghost use Rattle.dw_bytes.specs.Width.{size_of};
ghost use Rattle.dw_forms.specs.Tables.{bases_shown};
ghost use Rattle.dw_units.specs.Entry.{entry_shown};

use crate::entry::Entry;
use dw_bytes::Width;
use dw_forms::{Bases, Value};
use dw_model::dwarf::{DW_AT_addr_base, DW_AT_rnglists_base, DW_AT_str_offsets_base};

/// The offset that an attribute of a unit's first entry is.
fn base_in(root: &Option<Entry<'_>>, name: u64) -> Option<u64>
    ensures { result ≡ model.base_in (option_map entry_shown root.now) name }
{
    match root.as_ref()?.attr(name)? {
        Value::SectionOffset(offset) => Some(*offset),
        _ => None,
    }
}

/// The bases that the first entry of a unit of a width names, whichever attributes are before
/// them.
pub(crate) fn bases_of(root: &Option<Entry<'_>>, width: Width) -> Bases
    ensures { bases_shown result ≡ model.bases_in (size_of width) (option_map entry_shown root.now) }
{
    Bases {
        str_offsets: base_in(root, DW_AT_str_offsets_base),
        addr: base_in(root, DW_AT_addr_base),
        rnglists: base_in(root, DW_AT_rnglists_base),
        width,
    }
}
