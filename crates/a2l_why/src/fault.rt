//! Why a run ends early, and how that is reported.

use crate::command::USAGE;
use a2l_lines::LoadFault;
use clap::error::ErrorKind;
use std::alloc::AllocError;

/// Why a run ends early.
#[derive(Clone, Copy, Debug)]
pub enum Fault {
    /// The command line is refused.
    CommandLine,
    /// The file can't be read.
    File,
    /// The output can't be written.
    Write,
    Memory,
}

impl From<AllocError> for Fault {
    fn from(_error: AllocError) -> Self {
        Fault::Memory
    }
}

impl From<clap::Error> for Fault {
    fn from(error: clap::Error) -> Self {
        match error.kind() {
            ErrorKind::OutOfMemory => Fault::Memory,
            _ => Fault::CommandLine,
        }
    }
}

impl From<LoadFault> for Fault {
    fn from(fault: LoadFault) -> Self {
        match fault {
            LoadFault::Device => Fault::File,
            LoadFault::Memory => Fault::Memory,
        }
    }
}

impl Fault {
    /// The status of the run, and the line that is written to the error stream.
    pub fn told(self) -> (u8, &'static str) {
        match self {
            Fault::CommandLine => (2, USAGE),
            Fault::File => (3, "a2l_why: cannot read file\n"),
            Fault::Write => (3, "a2l_why: write failed\n"),
            Fault::Memory => (3, "a2l_why: out of memory\n"),
        }
    }
}
