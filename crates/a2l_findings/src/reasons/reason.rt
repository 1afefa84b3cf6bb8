//! Why something can't be read: a field, where it is, what it holds and what was wanted of it. All
//! of it is data, which becomes words only where it is written.

use crate::note::{Allocated, Words};
use std::alloc::{AllocError, AllocFailed};
use thiserror::Error;

/// Where a field is that can't be taken. Offsets count from the first byte of the section.
#[derive(Clone, Copy, Debug, Error)]
pub enum Spot {
    #[error("file header")]
    FileHeader,
    #[error("section header table")]
    SectionTable,
    #[error("section header of {0}")]
    SectionHeader(Words),
    /// What begins at an offset of a section.
    #[error("{0} at {1:#x} of {2}")]
    At(Words, u64, Words),
}

/// A field, by the name of the standard, where it has one.
#[derive(Clone, Copy, Debug, Error)]
pub enum Field {
    #[error("{0}")]
    Named(Words),
    #[error("attribute {0:#x} of form {1:#x}")]
    Attribute(u64, u64),
    #[error("the value of content type {0:#x} in form {1:#x}")]
    Content(u64, u64),
}

/// What a field holds.
#[derive(Clone, Copy, Debug, Error)]
pub enum Found {
    #[error("{0}")]
    Words(Words),
    #[error("{0}")]
    Number(u64),
    /// A number and what it stands for.
    #[error("{0} ({1})")]
    Named(u64, Words),
    #[error("{0} at {1:#x}")]
    NumberAt(u64, u64),
    #[error("{0} bytes")]
    Bytes(usize),
    #[error("{0:#x}")]
    Offset(u64),
    #[error("{0:#x} with {1} bytes after it")]
    Piece(u64, u64),
    /// The first bytes of a file, and what kind of file they begin.
    #[error("0x{0:08x}{1}")]
    Magic(u32, Words),
    #[error("cut: the file has {0} bytes")]
    CutFile(usize),
    /// How many bytes are left, and where.
    #[error("cut: {0} bytes are left at {1:#x} of {2}")]
    Cut(u64, u64, Words),
    /// What is wrong with a value, and where it is.
    #[error("{0}, at {1:#x} of {2}")]
    Unreadable(Words, u64, Words),
    #[error("index {0}")]
    Index(u64),
    #[error("index {0} behind the base {1:#x}")]
    IndexBehind(u64, u64),
}

/// What was wanted of a field.
#[derive(Clone, Copy, Debug, Error)]
pub enum Wanted {
    #[error("{0}")]
    Words(Words),
    #[error("{0} bytes")]
    Bytes(u64),
    #[error("at most {0}, the bytes that {1} has left")]
    Left(u64, Words),
    #[error("at most {0:#x}, the length of {1}")]
    Length(usize, Words),
    #[error("within {0}, which has {1:#x} bytes")]
    Within(Words, usize),
    #[error("below {0}, the number of sections")]
    Section(u64),
}

/// A field that can't be taken: where it is, what it is, what it holds and what was wanted of it.
#[derive(Clone, Copy, Debug, Error)]
#[error("{spot}: {field} is {found}, wanted {wanted}")]
pub struct Reason {
    pub spot: Spot,
    pub field: Field,
    pub found: Found,
    pub wanted: Wanted,
}

/// Why something can't be read, where that is known.
pub type Why = Option<Reason>;

/// What a reader reads, or why it stops.
pub type Read<T> = Result<T, Stop>;

/// Why a reader stops.
#[derive(Clone, Copy, Debug)]
pub enum Stop {
    /// At a field that can't be taken.
    For(Reason),
    /// Out of memory, which says nothing of the file.
    Memory,
}

impl From<AllocError> for Stop {
    fn from(_error: AllocError) -> Self {
        Stop::Memory
    }
}

impl<T: Drop> From<AllocFailed<T>> for Stop {
    fn from(_error: AllocFailed<T>) -> Self {
        Stop::Memory
    }
}

impl Spot {
    /// A stop at a field here.
    pub(super) fn stop(self, field: Words, found: Found, wanted: Wanted) -> Stop {
        Stop::For(Reason {
            spot: self,
            field: Field::Named(field),
            found,
            wanted,
        })
    }

    /// Whether an offset that a field names lies in a section or at its end; a stop where not.
    pub(super) fn check_offset(self, field: Words, at: u64, bytes: &[u8], name: Words) -> Read<()> {
        if at <= bytes.len() as u64 {
            return Ok(());
        }
        let wanted = Wanted::Length(bytes.len(), name);
        Err(self.stop(field, Found::Offset(at), wanted))
    }
}

/// The reason for which a reader stopped; `None` where it didn't.
pub fn reason_in(read: Read<()>) -> Allocated<Why> {
    match read {
        Ok(()) => Ok(None),
        Err(Stop::For(reason)) => Ok(Some(reason)),
        Err(Stop::Memory) => Err(AllocError),
    }
}
