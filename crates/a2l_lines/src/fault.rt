//! Why input or output comes to an end too early.

use std::alloc::{AllocError, AllocFailed};
use thiserror::Error;

/// Why input or output came to an end too early.
#[derive(Clone, Copy, Debug, PartialEq, Eq, Error)]
pub enum RunFault {
    /// The reader failed.
    #[error("read failed")]
    Read,
    /// The writer failed, or took nothing of a piece.
    #[error("write failed")]
    Write,
    #[error("out of memory")]
    Memory,
}

impl RunFault {
    ghost use Rattle.std.specs.Prelude.{◌≡◌};
    ghost use Rattle.a2l_lines.specs.Faults.{number_of_run};

    /// The number of the reason, 1 to 3.
    pub fn number(&self) -> u8
        ensures { result ≡ number_of_run self.now }
    {
        match self {
            RunFault::Read => 1,
            RunFault::Write => 2,
            RunFault::Memory => 3,
        }
    }
}

impl From<AllocError> for RunFault {
    ghost use Rattle.std.specs.Prelude.{◌≡◌};
    ghost use Rattle.a2l_lines.specs.declared.fault.RunFault.TheVariants.{Memory};

    ghost from_gives = { λ _ e. e ≡ Memory };

    fn from(_error: AllocError) -> Self {
        RunFault::Memory
    }
}

impl<T: Drop> From<AllocFailed<T>> for RunFault {
    ghost use Rattle.std.specs.Prelude.{◌≡◌};
    ghost use Rattle.a2l_lines.specs.declared.fault.RunFault.TheVariants.{Memory};

    ghost from_gives = { λ _ e. e ≡ Memory };

    fn from(_error: AllocFailed<T>) -> Self {
        RunFault::Memory
    }
}
