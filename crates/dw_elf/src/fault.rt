//! Why a file is refused.

ghost use Rattle.std.specs.Prelude.{◌≡◌};

use crate::name::Name;
use std::alloc::{AllocError, AllocFailed};
use thiserror::Error;

/// Why a file is refused. The first reason is reported: of `NotElf` to `Compressed` the first in
/// this order, of several sections the first that fails; then unit by unit `UnitHeader`,
/// `AddressSize` and `Root`; then `RootRanges`. Offsets count from the first byte of .debug_info.
#[derive(Clone, Copy, Debug, PartialEq, Eq, Error)]
pub enum OpenFault {
    /// It has fewer bytes than a header, or doesn't begin as an ELF file does.
    #[error("this is no ELF file")]
    NotElf,
    /// Its class isn't 64 bit, or its numbers aren't little-endian.
    #[error("this ELF file isn't a 64-bit little-endian one")]
    NotElf64Little,
    /// It is a relocatable object: relocations aren't applied.
    #[error("this is a relocatable object, which has to be linked first")]
    Relocatable,
    /// The section header table, or the section with the sections' names, can't be read.
    #[error("the section header table can't be read")]
    SectionTable,
    /// The bytes of a section aren't all in the file.
    #[error("the section {} runs past the end of the file", .0.text())]
    SectionRange(Name),
    /// A section is compressed.
    #[error("the section {} is compressed", .0.text())]
    Compressed(Name),
    /// A unit's header can't be read, or its length runs past the section.
    #[error("the header of the unit at {0:#x} can't be read")]
    UnitHeader(u64),
    /// A unit's addresses haven't 8 bytes.
    #[error("the unit at {0:#x} has addresses that aren't of 8 bytes")]
    AddressSize(u64),
    /// A unit's first entry or its abbreviations can't be read.
    #[error("the first entry of the unit at {0:#x} can't be read")]
    Root(u64),
    /// The ranges of a unit's first entry can't be read.
    #[error("the ranges of the unit at {0:#x} can't be read")]
    RootRanges(u64),
    /// An allocation was refused. It says nothing of the file.
    #[error("out of memory")]
    Memory,
}

impl OpenFault {
    ghost use Rattle.dw_elf.specs.OpenFault.{number_of, name_of};

    /// The number of the reason, from 1 to 12. 8 was another reason once, and isn't used.
    pub fn number(&self) -> u8
        ensures { result ≡ number_of self.now }
    {
        match self {
            OpenFault::NotElf => 1,
            OpenFault::NotElf64Little => 2,
            OpenFault::Relocatable => 3,
            OpenFault::SectionTable => 4,
            OpenFault::SectionRange(_) => 5,
            OpenFault::Compressed(_) => 6,
            OpenFault::UnitHeader(_) => 7,
            OpenFault::AddressSize(_) => 9,
            OpenFault::Root(_) => 10,
            OpenFault::RootRanges(_) => 11,
            OpenFault::Memory => 12,
        }
    }

    /// The name of the reason.
    pub fn name(&self) -> &'static str
        ensures { result.now ≡ name_of self.now }
    {
        match self {
            OpenFault::NotElf => "NotElf",
            OpenFault::NotElf64Little => "NotElf64Little",
            OpenFault::Relocatable => "Relocatable",
            OpenFault::SectionTable => "SectionTable",
            OpenFault::SectionRange(_) => "SectionRange",
            OpenFault::Compressed(_) => "Compressed",
            OpenFault::UnitHeader(_) => "UnitHeader",
            OpenFault::AddressSize(_) => "AddressSize",
            OpenFault::Root(_) => "Root",
            OpenFault::RootRanges(_) => "RootRanges",
            OpenFault::Memory => "Memory",
        }
    }
}

impl From<AllocError> for OpenFault {
    ghost use Rattle.std.specs.Prelude.{◌≡◌};
    ghost use Rattle.dw_elf.specs.declared.fault.OpenFault.TheVariants.{Memory};

    ghost from_gives = { λ _ e. e ≡ Memory };

    fn from(_error: AllocError) -> Self {
        OpenFault::Memory
    }
}

impl<T: Drop> From<AllocFailed<T>> for OpenFault {
    ghost use Rattle.std.specs.Prelude.{◌≡◌};
    ghost use Rattle.dw_elf.specs.declared.fault.OpenFault.TheVariants.{Memory};

    ghost from_gives = { λ _ e. e ≡ Memory };

    fn from(_error: AllocFailed<T>) -> Self {
        OpenFault::Memory
    }
}
