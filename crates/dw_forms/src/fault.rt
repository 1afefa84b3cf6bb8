//! Why a value, a declaration or an entry can't be read.

use dw_bytes::Leb;
use std::alloc::{AllocError, AllocFailed};
use thiserror::Error;

/// Why a value, a declaration or an entry can't be read.
#[derive(Clone, Copy, Debug, PartialEq, Eq, Error)]
pub enum FormFault {
    /// The bytes end before it does, or it begins outside of them.
    #[error("the bytes end too early")]
    End,
    /// Its form is unknown, or is DW_FORM_implicit_const where no number is declared.
    #[error("the form is unknown")]
    Form,
    /// A LEB128 number doesn't fit 64 bits.
    #[error("a number doesn't fit 64 bits")]
    Wide,
    /// An allocation was refused.
    #[error("out of memory")]
    Memory,
    /// An abbreviation has no declaration.
    #[error("an abbreviation isn't declared")]
    Code,
}

impl FormFault {
    ghost use Rattle.std.specs.Prelude.{◌≡◌};
    ghost use Rattle.dw_forms.specs.Fault.{fault_number};

    /// The number of the reason, 1 to 5.
    pub fn number(&self) -> u8
        ensures { result ≡ fault_number self.now }
    {
        match self {
            FormFault::End => 1,
            FormFault::Form => 2,
            FormFault::Wide => 3,
            FormFault::Memory => 4,
            FormFault::Code => 5,
        }
    }
}

impl From<Leb> for FormFault {
    ghost use Rattle.std.specs.Prelude.{◌≡◌};
    ghost use Rattle.dw_bytes.specs.Leb.{leb_fault};
    ghost use Rattle.dw_forms.specs.Fault.{form_fault};

    ghost from_gives = { λ leb fault. form_fault fault ≡ leb_fault leb };

    fn from(leb: Leb) -> Self {
        match leb {
            Leb::End => FormFault::End,
            Leb::Wide => FormFault::Wide,
        }
    }
}

impl From<AllocError> for FormFault {
    ghost use Rattle.std.specs.Prelude.{◌≡◌};
    ghost use Rattle.dw_forms.specs.declared.fault.FormFault.TheVariants.{Memory};

    ghost from_gives = { λ _ fault. fault ≡ Memory };

    fn from(_error: AllocError) -> Self {
        FormFault::Memory
    }
}

impl<T: Drop> From<AllocFailed<T>> for FormFault {
    ghost use Rattle.std.specs.Prelude.{◌≡◌};
    ghost use Rattle.dw_forms.specs.declared.fault.FormFault.TheVariants.{Memory};

    ghost from_gives = { λ _ fault. fault ≡ Memory };

    fn from(_error: AllocFailed<T>) -> Self {
        FormFault::Memory
    }
}
