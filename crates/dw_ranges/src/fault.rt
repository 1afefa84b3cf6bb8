//! Why the ranges of an entry can't be read.

use dw_bytes::Leb;
use std::alloc::{AllocError, AllocFailed};
use thiserror::Error;

/// Why the ranges of an entry can't be read.
#[derive(Clone, Copy, Debug, PartialEq, Eq, Error)]
pub enum RangeFault {
    /// An address that is used can't be read, or the range list has an unknown entry, a number that
    /// doesn't fit 64 bits, or no end within its section.
    #[error("the ranges can't be read")]
    Bad,
    /// An allocation was refused.
    #[error("out of memory")]
    Memory,
}

impl RangeFault {
    ghost use Rattle.std.specs.Prelude.{◌≡◌};
    ghost use Rattle.dw_ranges.specs.Fault.{fault_number};

    /// The number of the reason, 1 or 2.
    pub fn number(&self) -> u8
        ensures { result ≡ fault_number self.now }
    {
        match self {
            RangeFault::Bad => 1,
            RangeFault::Memory => 2,
        }
    }
}

impl From<Leb> for RangeFault {
    ghost use Rattle.std.specs.Prelude.{◌≡◌};
    ghost use Rattle.dw_ranges.specs.declared.fault.RangeFault.TheVariants.{Bad};

    ghost from_gives = { λ _ fault. fault ≡ Bad };

    fn from(_leb: Leb) -> Self {
        RangeFault::Bad
    }
}

impl From<AllocError> for RangeFault {
    ghost use Rattle.std.specs.Prelude.{◌≡◌};
    ghost use Rattle.dw_ranges.specs.declared.fault.RangeFault.TheVariants.{Memory};

    ghost from_gives = { λ _ fault. fault ≡ Memory };

    fn from(_error: AllocError) -> Self {
        RangeFault::Memory
    }
}

impl<T: Drop> From<AllocFailed<T>> for RangeFault {
    ghost use Rattle.std.specs.Prelude.{◌≡◌};
    ghost use Rattle.dw_ranges.specs.declared.fault.RangeFault.TheVariants.{Memory};

    ghost from_gives = { λ _ fault. fault ≡ Memory };

    fn from(_error: AllocFailed<T>) -> Self {
        RangeFault::Memory
    }
}
