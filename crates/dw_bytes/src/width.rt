//! The two formats of DWARF, by section 7.4 of DWARF 5: how many bytes offsets have.

ghost use Rattle.std.specs.Prelude.{◌≡◌};
ghost use Rattle.dw_bytes.specs.Width.{size_of};

use dw_model::dwarf::{OFFSET_SIZE_32, OFFSET_SIZE_64};

/// How many bytes an offset has: four in the 32-bit format, eight in the 64-bit one.
#[derive(Clone, Copy, Debug, PartialEq, Eq)]
pub enum Width {
    Four,
    Eight,
}

/// What an initial length says (sections 7.2.2 and 7.4).
#[derive(Clone, Copy, Debug, PartialEq, Eq)]
pub enum Initial {
    /// So many bytes follow, whose offsets have this width.
    Bytes(u64, Width),
    /// Nothing: one of the values 0xfffffff0 to 0xfffffffe.
    Reserved,
}

impl Width {
    /// The number of bytes.
    #[inline(always)]
    pub fn size(self) -> usize
        ensures { result ≡ size_of self }
    {
        match self {
            Width::Four => OFFSET_SIZE_32,
            Width::Eight => OFFSET_SIZE_64,
        }
    }
}
