//! The sections that are used.

ghost use Rattle.std.specs.Prelude.{◌≡◌};

/// A section that is used, in the order in which conditions are tested.
#[derive(Clone, Copy, Debug, PartialEq, Eq)]
pub enum Name {
    DebugInfo,
    DebugAbbrev,
    DebugLine,
    DebugLineStr,
    DebugStr,
    DebugStrOffsets,
    DebugAddr,
    DebugRnglists,
}

impl Name {
    ghost use Rattle.dw_elf.specs.Name.{text_of};
    ghost use Rattle.dw_model.specs.Section.{compressed_name};

    /// All of them, in order.
    pub const ALL: [Name; 8] = [
        Name::DebugInfo,
        Name::DebugAbbrev,
        Name::DebugLine,
        Name::DebugLineStr,
        Name::DebugStr,
        Name::DebugStrOffsets,
        Name::DebugAddr,
        Name::DebugRnglists,
    ];

    /// The section's name as it is in a file.
    pub fn text(self) -> &'static str
        ensures { result.now ≡ text_of self }
    {
        match self {
            Name::DebugInfo => ".debug_info",
            Name::DebugAbbrev => ".debug_abbrev",
            Name::DebugLine => ".debug_line",
            Name::DebugLineStr => ".debug_line_str",
            Name::DebugStr => ".debug_str",
            Name::DebugStrOffsets => ".debug_str_offsets",
            Name::DebugAddr => ".debug_addr",
            Name::DebugRnglists => ".debug_rnglists",
        }
    }

    /// The name of the same section where it is compressed in the older way.
    pub fn compressed_text(self) -> &'static str
        ensures { result.now ≡ compressed_name (text_of self) }
    {
        match self {
            Name::DebugInfo => ".zdebug_info",
            Name::DebugAbbrev => ".zdebug_abbrev",
            Name::DebugLine => ".zdebug_line",
            Name::DebugLineStr => ".zdebug_line_str",
            Name::DebugStr => ".zdebug_str",
            Name::DebugStrOffsets => ".zdebug_str_offsets",
            Name::DebugAddr => ".zdebug_addr",
            Name::DebugRnglists => ".zdebug_rnglists",
        }
    }
}
