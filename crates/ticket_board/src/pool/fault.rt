//! Why a pool gives no answers.

use crate::fault::BoardFault;
use std::alloc::AllocError;
use thiserror::Error;

/// Why a pool gives no answers.
#[derive(Clone, Copy, Debug, PartialEq, Eq, Error)]
pub enum PoolFault {
    /// The shape isn't within its limits, or a sender would have more queries than it may ask.
    #[error("the shape of the pool is not within its limits")]
    BadShape,
    /// An allocation or a thread was refused.
    #[error("out of memory")]
    Memory,
}

impl PoolFault {
    ghost use Rattle.std.specs.Prelude.{◌≡◌};
    ghost use Rattle.ticket_board.specs.Faults.{number_of_pool};

    /// The number of the reason, 1 or 2.
    pub fn number(&self) -> u8
        ensures { result ≡ number_of_pool self.now }
    {
        match self {
            PoolFault::BadShape => 1,
            PoolFault::Memory => 2,
        }
    }
}

impl From<AllocError> for PoolFault {
    ghost use Rattle.std.specs.Prelude.{◌≡◌};
    ghost use Rattle.ticket_board.specs.declared.pool.fault.PoolFault.TheVariants.{Memory};

    ghost from_gives = { λ _ fault. fault ≡ Memory };

    fn from(_error: AllocError) -> Self {
        PoolFault::Memory
    }
}

impl From<BoardFault> for PoolFault {
    ghost use Rattle.std.specs.Prelude.{◌≡◌};
    ghost use Rattle.ticket_board.specs.Faults.{pool_fault};

    ghost from_gives = { λ fault told. told ≡ pool_fault fault };

    fn from(fault: BoardFault) -> Self {
        match fault {
            BoardFault::BadShape => PoolFault::BadShape,
            BoardFault::Memory => PoolFault::Memory,
        }
    }
}
