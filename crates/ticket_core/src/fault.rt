//! Why a call is refused.

ghost use Rattle.std.specs.Prelude.{◌≡◌};

use std::alloc::AllocError;
use thiserror::Error;

/// Why no core is made.
#[derive(Clone, Copy, Debug, PartialEq, Eq, Error)]
pub enum NewFault {
    /// The shape isn't within its limits.
    #[error("the shape of the core is not within its limits")]
    BadShape,
    /// An allocation was refused.
    #[error("out of memory")]
    Memory,
}

/// Why a call of a core is refused. A refusal changes nothing.
#[derive(Clone, Copy, Debug, PartialEq, Eq, Error)]
pub enum CoreFault {
    /// As many numbers as the window allows are outstanding.
    #[error("the window of this sender is full")]
    Full,
    /// The sender is closed.
    #[error("this sender is closed")]
    Closed,
    /// The sender asked as many queries as it may.
    #[error("this sender asked as many queries as it may")]
    Exhausted,
    /// The number doesn't wait for a worker.
    #[error("this number does not wait for a worker")]
    NotAsked,
    /// The worker holds a query already.
    #[error("this worker holds a query already")]
    HandFull,
    /// The worker holds no query.
    #[error("this worker holds no query")]
    HandEmpty,
    /// The sender's next number isn't answered yet.
    #[error("the next answer is not there yet")]
    NotReady,
    /// The sender is closed, and it received everything.
    #[error("this sender is closed and received everything")]
    Ended,
    /// An allocation was refused.
    #[error("out of memory")]
    Memory,
}

impl NewFault {
    ghost use Rattle.ticket_core.specs.NewFaults.{number_of_new};

    /// The number of the reason, 1 or 2.
    pub fn number(&self) -> u8
        ensures { result ≡ number_of_new self.now }
    {
        match self {
            NewFault::BadShape => 1,
            NewFault::Memory => 2,
        }
    }
}

impl CoreFault {
    ghost use Rattle.ticket_core.specs.Faults.{number_of};

    /// The number of the reason, from 1 to 9.
    pub fn number(&self) -> u8
        ensures { result ≡ number_of self.now }
    {
        match self {
            CoreFault::Full => 1,
            CoreFault::Closed => 2,
            CoreFault::Exhausted => 3,
            CoreFault::NotAsked => 4,
            CoreFault::HandFull => 5,
            CoreFault::HandEmpty => 6,
            CoreFault::NotReady => 7,
            CoreFault::Ended => 8,
            CoreFault::Memory => 9,
        }
    }
}

impl From<AllocError> for NewFault {
    ghost use Rattle.std.specs.Prelude.{◌≡◌};
    ghost use Rattle.ticket_core.specs.declared.fault.NewFault.TheVariants.{Memory};

    ghost from_gives = { λ _ e. e ≡ Memory };

    fn from(_error: AllocError) -> Self {
        NewFault::Memory
    }
}

impl From<AllocError> for CoreFault {
    ghost use Rattle.std.specs.Prelude.{◌≡◌};
    ghost use Rattle.ticket_core.specs.declared.fault.CoreFault.TheVariants.{Memory};

    ghost from_gives = { λ _ e. e ≡ Memory };

    fn from(_error: AllocError) -> Self {
        CoreFault::Memory
    }
}
