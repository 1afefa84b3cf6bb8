//! Why a line table can't be used.

use dw_bytes::Leb;
use dw_forms::FormFault;
use std::alloc::{AllocError, AllocFailed};
use thiserror::Error;

/// Why a line table can't be used.
#[derive(Clone, Copy, Debug, PartialEq, Eq, Error)]
pub enum LineFault {
    /// Its header or its program can't be read.
    #[error("the line table is bad")]
    Bad,
    /// An allocation was refused.
    #[error("out of memory")]
    Memory,
}

impl LineFault {
    ghost use Rattle.std.specs.Prelude.{◌≡◌};
    ghost use Rattle.dw_line.specs.Fault.{fault_number};

    /// The number of the reason, 1 or 2.
    pub fn number(&self) -> u8
        ensures { result ≡ fault_number self.now }
    {
        match self {
            LineFault::Bad => 1,
            LineFault::Memory => 2,
        }
    }
}

impl From<Leb> for LineFault {
    ghost use Rattle.std.specs.Prelude.{◌≡◌};
    ghost use Rattle.dw_line.specs.declared.fault.LineFault.TheVariants.{Bad};

    ghost from_gives = { λ _ fault. fault ≡ Bad };

    fn from(_leb: Leb) -> Self {
        LineFault::Bad
    }
}

impl From<AllocError> for LineFault {
    ghost use Rattle.std.specs.Prelude.{◌≡◌};
    ghost use Rattle.dw_line.specs.declared.fault.LineFault.TheVariants.{Memory};

    ghost from_gives = { λ _ fault. fault ≡ Memory };

    fn from(_error: AllocError) -> Self {
        LineFault::Memory
    }
}

impl<T: Drop> From<AllocFailed<T>> for LineFault {
    ghost use Rattle.std.specs.Prelude.{◌≡◌};
    ghost use Rattle.dw_line.specs.declared.fault.LineFault.TheVariants.{Memory};

    ghost from_gives = { λ _ fault. fault ≡ Memory };

    fn from(_error: AllocFailed<T>) -> Self {
        LineFault::Memory
    }
}
