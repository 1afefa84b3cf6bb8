//! What an address means.

ghost use Rattle.std.specs.Prelude.{◌≡◌};
ghost use Rattle.dw_symbols.specs.Answer.{number_of};

/// Where in the source an address comes from, as far as that is known.
#[derive(Debug, Drop)]
pub struct Location {
    /// The path of the source file, by its bytes.
    pub path: Option<Vec<u8>>,
    /// The line, counted from 1.
    pub line: Option<u64>,
    /// The column; 0 is the line's left edge.
    pub column: Option<u64>,
}

/// A function at an address.
#[derive(Debug, Drop)]
pub struct Frame<'a> {
    /// Its name, as a slice of the file.
    pub name: Option<&'a [u8]>,
    /// Where the address comes from in it; in a function in which others are inlined, where the
    /// next inner one was called.
    pub location: Location,
}

/// Why a unit gives no answer.
#[derive(Clone, Copy, Debug, PartialEq, Eq)]
pub enum UnitFault {
    /// An entry can't be read.
    Entry,
    /// Entries are too deep in one another.
    Depth,
    /// The ranges of a function can't be read.
    Ranges,
    /// The line table can't be read.
    Line,
}

/// Addresses from `begin` on and below `end`, which have one location.
#[derive(Debug, Drop)]
pub struct Piece {
    pub begin: u64,
    pub end: u64,
    pub location: Location,
}

/// What an address means, or a span of addresses. Units are told by their offset in .debug_info.
#[derive(Debug, Drop)]
pub enum Answer<'a> {
    /// No unit covers the address.
    NotCovered,
    /// The unit that covers the address can't be read; of a span, that of the first address for
    /// which this is so.
    Fault { unit: u64, code: UnitFault },
    /// The frames at the address, innermost first.
    Found { unit: u64, frames: Vec<Frame<'a>> },
    /// The pieces of the span that have locations, in order of address. None is empty, no two
    /// overlap, and two that touch have different locations.
    Pieces(Vec<Piece>),
}

impl UnitFault {
    /// The number of the reason, from 1 to 4.
    pub fn number(self) -> u8
        ensures { result ≡ number_of self }
    {
        match self {
            UnitFault::Entry => 1,
            UnitFault::Depth => 2,
            UnitFault::Ranges => 3,
            UnitFault::Line => 4,
        }
    }
}
