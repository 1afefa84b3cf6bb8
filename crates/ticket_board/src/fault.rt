//! Why a call is refused.

use std::alloc::AllocError;
use thiserror::Error;

/// Why no board is opened.
#[derive(Clone, Copy, Debug, PartialEq, Eq, Error)]
pub enum BoardFault {
    /// The shape isn't within its limits.
    #[error("the shape of the board is not within its limits")]
    BadShape,
    /// An allocation was refused.
    #[error("out of memory")]
    Memory,
}

/// Why a query isn't asked. A refusal changes nothing.
#[derive(Clone, Copy, Debug, PartialEq, Eq, Error)]
pub enum AskFault {
    /// As many numbers as the window allows are outstanding.
    #[error("the window of this sender is full")]
    Full,
    /// The sender is closed.
    #[error("this sender is closed")]
    Closed,
    /// The sender asked as many queries as it may.
    #[error("this sender asked as many queries as it may")]
    Exhausted,
}

impl BoardFault {
    ghost use Rattle.std.specs.Prelude.{◌≡◌};
    ghost use Rattle.ticket_board.specs.Faults.{number_of_board};

    /// The number of the reason, 1 or 2.
    pub fn number(&self) -> u8
        ensures { result ≡ number_of_board self.now }
    {
        match self {
            BoardFault::BadShape => 1,
            BoardFault::Memory => 2,
        }
    }
}

impl AskFault {
    ghost use Rattle.std.specs.Prelude.{◌≡◌};
    ghost use Rattle.ticket_board.specs.Faults.{number_of_ask};

    /// The number of the reason, from 1 to 3.
    pub fn number(&self) -> u8
        ensures { result ≡ number_of_ask self.now }
    {
        match self {
            AskFault::Full => 1,
            AskFault::Closed => 2,
            AskFault::Exhausted => 3,
        }
    }
}

impl From<AllocError> for BoardFault {
    ghost use Rattle.std.specs.Prelude.{◌≡◌};
    ghost use Rattle.ticket_board.specs.declared.fault.BoardFault.TheVariants.{Memory};

    ghost from_gives = { λ _ fault. fault ≡ Memory };

    fn from(_error: AllocError) -> Self {
        BoardFault::Memory
    }
}
