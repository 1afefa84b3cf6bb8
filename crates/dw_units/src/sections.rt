//! The sections of a file that are used.

ghost use Rattle.std.specs.Prelude.{◌≡◌};
ghost use Rattle.dw_model.specs.Section as model;
ghost use Rattle.dw_units.specs.Sections.{sections_shown};

use dw_elf::{Elf, Name};
use dw_forms::Tables;

/// The sections of a file that are used, as slices of it. One that the file hasn't is empty.
#[derive(Clone, Copy, Debug)]
pub struct Sections<'a> {
    /// .debug_info
    pub info: &'a [u8],
    /// .debug_abbrev
    pub abbrevs: &'a [u8],
    /// .debug_line
    pub line: &'a [u8],
    pub tables: Tables<'a>,
}

impl<'a> Sections<'a> {
    /// Those of a file.
    pub fn of(elf: &Elf<'a>) -> Self
        ensures { sections_shown result ≡ model.sections elf.now }
    {
        Sections {
            info: elf.section(Name::DebugInfo),
            abbrevs: elf.section(Name::DebugAbbrev),
            line: elf.section(Name::DebugLine),
            tables: Tables {
                str: elf.section(Name::DebugStr),
                line_str: elf.section(Name::DebugLineStr),
                str_offsets: elf.section(Name::DebugStrOffsets),
                addr: elf.section(Name::DebugAddr),
                rnglists: elf.section(Name::DebugRnglists),
            },
        }
    }
}
