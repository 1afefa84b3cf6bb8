//! Why a run ends early, and how that is reported.

ghost use Rattle.std.specs.Prelude.{◌≡◌, ◌⊎◌, IfOk, string_bytes};
ghost use Rattle.std.specs.Cow.{cow_str_bytes};
ghost use Rattle.a2l.specs.Fault.{subject_of, refusal_line, line_of, status_of, Tells, Reports};

use crate::command::{ParseFault, USAGE};
use a2l_lines::{LoadFault, RunFault, Sink, write_all};
use dw_elf::OpenFault;
use std::alloc::{AllocError, Global};
use std::borrow::CowStr;

/// Why a run ends early.
#[derive(Clone, Copy, Debug, PartialEq, Eq)]
pub enum Fault {
    /// The command line is refused.
    CommandLine,
    /// The file can't be loaded.
    File,
    /// The file is refused.
    Refused(OpenFault),
    /// The reader failed.
    Read,
    /// The writer failed.
    Write,
    Memory,
}

impl From<ParseFault> for Fault {
    ghost use Rattle.std.specs.Prelude.{◌≡◌};
    ghost use Rattle.a2l.specs.Conversions.{fault_of_parse};

    ghost from_gives = { λ fault made. made ≡ fault_of_parse fault };

    fn from(fault: ParseFault) -> Self {
        match fault {
            ParseFault::Refused => Fault::CommandLine,
            ParseFault::Memory => Fault::Memory,
        }
    }
}

impl From<LoadFault> for Fault {
    ghost use Rattle.std.specs.Prelude.{◌≡◌};
    ghost use Rattle.a2l.specs.Conversions.{fault_of_load};

    ghost from_gives = { λ fault made. made ≡ fault_of_load fault };

    fn from(fault: LoadFault) -> Self {
        match fault {
            LoadFault::Device => Fault::File,
            LoadFault::Memory => Fault::Memory,
        }
    }
}

impl From<OpenFault> for Fault {
    ghost use Rattle.std.specs.Prelude.{◌≡◌};
    ghost use Rattle.a2l.specs.Conversions.{fault_of_open};

    ghost from_gives = { λ fault made. made ≡ fault_of_open fault };

    fn from(fault: OpenFault) -> Self {
        match fault {
            OpenFault::Memory => Fault::Memory,
            fault => Fault::Refused(fault),
        }
    }
}

impl From<AllocError> for Fault {
    ghost use Rattle.std.specs.Prelude.{◌≡◌};
    ghost use Rattle.a2l.specs.declared.fault.Fault.TheVariants.{Memory};

    ghost from_gives = { λ _ e. e ≡ Memory };

    fn from(_error: AllocError) -> Self {
        Fault::Memory
    }
}

impl From<RunFault> for Fault {
    ghost use Rattle.std.specs.Prelude.{◌≡◌};
    ghost use Rattle.a2l.specs.Conversions.{fault_of_run};

    ghost from_gives = { λ fault made. made ≡ fault_of_run fault };

    fn from(fault: RunFault) -> Self {
        match fault {
            RunFault::Read => Fault::Read,
            RunFault::Write => Fault::Write,
            RunFault::Memory => Fault::Memory,
        }
    }
}

const OUT_OF_MEMORY: &str = "a2l: out of memory\n";

impl Fault {
    /// The status of the run.
    fn status(&self) -> u8
        ensures { result ≡ status_of self.now }
    {
        match self {
            Fault::CommandLine | Fault::Refused(_) => 2,
            Fault::File | Fault::Read | Fault::Write | Fault::Memory => 3,
        }
    }
}

/// What a refusal speaks of, with a blank before it: a section, the unit at an offset, or nothing.
fn subject(alloc: Global, fault: &OpenFault) -> Result<String, AllocError>
    ensures { IfOk result (λ text. string_bytes text ≡ subject_of fault.now) }
{
    match fault {
        OpenFault::SectionRange(section) | OpenFault::Compressed(section) => {
            let section = section.text();
            format!(in alloc; " {section}")
        }
        OpenFault::UnitHeader(offset)
        | OpenFault::AddressSize(offset)
        | OpenFault::Root(offset)
        | OpenFault::RootRanges(offset) => {
            let offset = *offset;
            format!(in alloc; " 0x{offset:x}")
        }
        OpenFault::NotElf
        | OpenFault::NotElf64Little
        | OpenFault::Relocatable
        | OpenFault::SectionTable
        | OpenFault::Memory => Ok(String::new(alloc)),
    }
}

/// The line that reports a refused file.
fn refusal_line(alloc: Global, fault: &OpenFault) -> Result<String, AllocError>
    ensures { IfOk result (λ line. string_bytes line ≡ refusal_line fault.now) }
{
    let number = fault.number();
    let name = fault.name();
    let subject = subject(alloc, fault)?;
    format!(in alloc; "a2l: file refused: {number} {name}{subject}\n")
}

/// The text that reports a fault, and the fault that it reports: out of memory, where the text
/// itself couldn't be made.
fn told(alloc: Global, fault: Fault) -> (Fault, CowStr<'static>)
    ensures line { cow_str_bytes result.1 ≡ line_of result.0 }
    ensures fault { (result.0 ≡ fault) ⊎ (result.0 ≡ Fault.Memory) }
{
    let line = match fault {
        Fault::CommandLine => USAGE,
        Fault::Refused(refusal) => {
            return match refusal_line(alloc, &refusal) {
                Ok(line) => (fault, CowStr::Owned(line)),
                Err(AllocError) => (Fault::Memory, CowStr::Borrowed(OUT_OF_MEMORY)),
            };
        }
        Fault::File => "a2l: cannot read file\n",
        Fault::Read => "a2l: read failed\n",
        Fault::Write => "a2l: write failed\n",
        Fault::Memory => OUT_OF_MEMORY,
    };
    (fault, CowStr::Borrowed(line))
}

/// Reports a fault on the error stream, and returns the status of the run. A failure of that stream
/// changes no status.
pub fn report<E: Sink>(alloc: Global, errors: &mut E, fault: Fault) -> u8
    ensures { Reports fault result
        (E.told errors.old) (E.told errors.new) (E.failures errors.old) (E.failures errors.new) }
{
    let (told, line) = told(alloc, fault);
    let _ = write_all(errors, line.as_str().as_bytes());
    told.status()
}
