//! Why the entries of a unit can't be read.

use dw_forms::FormFault;
use dw_ranges::RangeFault;
use std::alloc::{AllocError, AllocFailed};
use thiserror::Error;

/// Why the entries of a unit can't be read.
#[derive(Clone, Copy, Debug, PartialEq, Eq, Error)]
pub enum TreeFault {
    /// An entry can't be read.
    #[error("an entry can't be read")]
    Entry,
    /// An entry is below more than 512 others.
    #[error("an entry stands too deep")]
    Depth,
    /// The ranges of a function can't be read.
    #[error("the ranges of a function can't be read")]
    Ranges,
    /// An allocation was refused.
    #[error("out of memory")]
    Memory,
}

impl TreeFault {
    ghost use Rattle.std.specs.Prelude.{◌≡◌};
    ghost use Rattle.dw_frames.specs.Fault.{fault_number};

    /// The number of the reason: 1, 2, 3 or 5.
    pub fn number(&self) -> u8
        ensures { result ≡ fault_number self.now }
    {
        match self {
            TreeFault::Entry => 1,
            TreeFault::Depth => 2,
            TreeFault::Ranges => 3,
            TreeFault::Memory => 5,
        }
    }
}

impl From<AllocError> for TreeFault {
    ghost use Rattle.std.specs.Prelude.{◌≡◌};
    ghost use Rattle.dw_frames.specs.declared.fault.TreeFault.TheVariants.{Memory};

    ghost from_gives = { λ _ fault. fault ≡ Memory };

    fn from(_error: AllocError) -> Self {
        TreeFault::Memory
    }
}

impl<T: Drop> From<AllocFailed<T>> for TreeFault {
    ghost use Rattle.std.specs.Prelude.{◌≡◌};
    ghost use Rattle.dw_frames.specs.declared.fault.TreeFault.TheVariants.{Memory};

    ghost from_gives = { λ _ fault. fault ≡ Memory };

    fn from(_error: AllocFailed<T>) -> Self {
        TreeFault::Memory
    }
}

impl From<FormFault> for TreeFault {
    ghost use Rattle.std.specs.Prelude.{◌≡◌, option_map};
    ghost use Rattle.dw_model.specs.Faults.{entry_fault};
    ghost use Rattle.dw_forms.specs.Fault.{form_fault};
    ghost use Rattle.dw_frames.specs.Fault.{tree_fault};

    ghost from_gives = { λ fault told. tree_fault told ≡ option_map (λ _. entry_fault) (form_fault fault) };

    fn from(fault: FormFault) -> Self {
        match fault {
            FormFault::Memory => TreeFault::Memory,
            FormFault::End | FormFault::Form | FormFault::Wide | FormFault::Code => {
                TreeFault::Entry
            }
        }
    }
}

impl From<RangeFault> for TreeFault {
    ghost use Rattle.std.specs.Prelude.{◌≡◌, option_map};
    ghost use Rattle.dw_model.specs.Faults.{ranges_fault};
    ghost use Rattle.dw_ranges.specs.Fault.{range_fault};
    ghost use Rattle.dw_frames.specs.Fault.{tree_fault};

    ghost from_gives = { λ fault told. tree_fault told ≡ option_map (λ _. ranges_fault) (range_fault fault) };

    fn from(fault: RangeFault) -> Self {
        match fault {
            RangeFault::Memory => TreeFault::Memory,
            RangeFault::Bad => TreeFault::Ranges,
        }
    }
}
