//! The bytes of a file.

use std::alloc::{AllocError, AllocFailed, Global};
use std::fs::{File, OpenFile};
use std::io::{ErrorKind, Read};
use std::rt::Files;
use thiserror::Error;

/// Room after a file's bytes, so that its end is found without a larger block.
const SPARE: usize = 64;

/// Why a file couldn't be loaded.
#[derive(Clone, Copy, Debug, PartialEq, Eq, Error)]
pub enum LoadFault {
    /// The file isn't there, or a read of it failed.
    #[error("the file can't be read")]
    Device,
    #[error("out of memory")]
    Memory,
}

impl LoadFault {
    ghost use Rattle.std.specs.Prelude.{◌≡◌};
    ghost use Rattle.a2l_lines.specs.Faults.{number_of_load};

    /// The number of the reason, 1 or 2.
    pub fn number(&self) -> u8
        ensures { result ≡ number_of_load self.now }
    {
        match self {
            LoadFault::Device => 1,
            LoadFault::Memory => 2,
        }
    }
}

impl From<AllocError> for LoadFault {
    fn from(_error: AllocError) -> Self {
        LoadFault::Memory
    }
}

impl<T: Drop> From<AllocFailed<T>> for LoadFault {
    fn from(_error: AllocFailed<T>) -> Self {
        LoadFault::Memory
    }
}

impl From<std::io::Error> for LoadFault {
    fn from(error: std::io::Error) -> Self {
        match error.kind() {
            ErrorKind::OutOfMemory => LoadFault::Memory,
            _ => LoadFault::Device,
        }
    }
}

/// An empty list with room for `size` bytes and some more.
fn room_for(alloc: Global, size: u64) -> Result<Vec<u8>, AllocError> {
    let Ok(size) = usize::try_from(size) else {
        return Err(AllocError);
    };
    Vec::with_capacity(alloc, size.saturating_add(SPARE))
}

/// All bytes of a file, in one block of the size that the system reports: a list that is allocated
/// anew as it gets longer would be copied again and again. The error is `Device`, also for a
/// folder, or `Memory`.
pub fn read_file<R: Files>(rt: &R, alloc: Global, path: &str) -> Result<Vec<u8>, LoadFault> {
    let mut file = File::open(rt, path)?;
    let size = file.metadata()?.len();
    let mut bytes = room_for(alloc, size)?;
    file.read_to_end(&mut bytes)?;
    Ok(bytes)
}
