//! The structs of the header, and how they are filled.

ghost use Rattle.std.specs.Prelude.{◌≡◌, ◌≢◌, ◌⊎◌};
ghost use Rattle.dw_symbols.specs.Answer.{answer_shown, frame_shown, location_shown, piece_shown};
ghost use Rattle.a2l_c.specs.Structs as model;
ghost use Rattle.a2l_c.specs.Structs.{IsReason, IsFrame, IsCopied, IsTooLong, answer_told, location_told, piece_told};

use crate::handle::Handle;
use crate::status::Status;
use dw_elf::OpenFault;
use dw_symbols::{Answer, Frame, Location, Piece};

/// An open file with the answers of the last question. Of zeros it is closed.
#[repr(C)]
#[derive(Drop)]
pub struct CHandle {
    pub open: bool,
    pub handle: Handle,
}

/// Why a file is refused.
#[repr(C)]
pub struct CRefusal<'a> {
    /// The reason's name.
    pub name: &'a [u8],
    /// The section that it speaks of, or nothing.
    pub section: &'a [u8],
    /// The offset in .debug_info of the unit that it speaks of, or 0.
    pub offset: u64,
    /// The reason's number, from 1 to 11.
    pub number: u32,
}

/// What an answer is.
#[repr(C)]
#[derive(Drop)]
pub struct CAnswer {
    /// 0 not covered, 1 frames, 2 the fault of a unit, 3 pieces.
    pub kind: u32,
    /// The number of the fault, from 1 to 4, or 0.
    pub fault: u32,
    /// The offset of the unit in .debug_info, or 0.
    pub unit: u64,
    /// How many frames or pieces there are.
    pub count: usize,
}

/// Where in the source an address comes from. The path is in a buffer of the caller's.
#[repr(C)]
#[derive(Drop)]
pub struct CLocation {
    pub path_length: usize,
    pub line: u64,
    pub column: u64,
    pub path_known: bool,
    pub line_known: bool,
    pub column_known: bool,
}

/// A function at an address.
#[repr(C)]
pub struct CFrame<'a> {
    pub name: &'a [u8],
    pub location: CLocation,
    pub name_known: bool,
}

/// Addresses from `begin` on and below `end`, which have one location.
#[repr(C)]
pub struct CPiece {
    pub begin: u64,
    pub end: u64,
    pub location: CLocation,
}

/// Fills in why a file is refused, where it isn't out of memory.
pub(crate) fn tell_refusal(fault: &OpenFault, told: &mut CRefusal<'static>)
    ensures { IsReason fault.now told.new }
{
    told.number = fault.number() as u32;
    told.name = fault.name().as_bytes();
    told.section = match fault {
        OpenFault::SectionRange(name) | OpenFault::Compressed(name) => name.text().as_bytes(),
        _ => b"",
    };
    told.offset = match fault {
        OpenFault::UnitHeader(offset)
        | OpenFault::AddressSize(offset)
        | OpenFault::Root(offset)
        | OpenFault::RootRanges(offset) => *offset,
        _ => 0,
    };
}

/// Fills in what an answer is.
pub(crate) fn tell_answer(answer: &Answer<'static>, told: &mut CAnswer)
    ensures { told.new ≡ answer_told (answer_shown answer.now) }
{
    *told = match answer {
        Answer::NotCovered => CAnswer {
            kind: 0,
            fault: 0,
            unit: 0,
            count: 0,
        },
        Answer::Found { unit, frames } => CAnswer {
            kind: 1,
            fault: 0,
            unit: *unit,
            count: frames.len(),
        },
        Answer::Fault { unit, code } => CAnswer {
            kind: 2,
            fault: code.number() as u32,
            unit: *unit,
            count: 0,
        },
        Answer::Pieces(pieces) => CAnswer {
            kind: 3,
            fault: 0,
            unit: 0,
            count: pieces.len(),
        },
    };
}

/// The bytes of a location's path, of which there are none if it isn't known.
fn path_of(location: &Location) -> &[u8]
    ensures { result.now ≡ model.path_of (location_shown location.now) }
{
    match &location.path {
        Some(path) => path,
        None => b"",
    }
}

/// Copies a path to the front of a buffer if it fits, and changes nothing behind it.
fn copy_path(path: &[u8], buffer: &mut [u8]) -> Status
    ensures copied { result ≡ Status.Done → IsCopied buffer.old buffer.new path.now }
    ensures short { result ≡ Status.Short → IsTooLong buffer.old path.now }
    ensures uncopied { result ≢ Status.Done → buffer.new ≡ buffer.old }
    ensures ends { (result ≡ Status.Done) ⊎ (result ≡ Status.Short) }
{
    let n = path.len();
    if n > buffer.len() {
        return Status::Short;
    }
    buffer.split_at_mut(n).0.copy_from_slice(path);
    Status::Done
}

/// Fills in a location, and copies its path to a buffer if it fits.
fn tell_location(location: &Location, buffer: &mut [u8], told: &mut CLocation) -> Status
    ensures told { told.new ≡ location_told (location_shown location.now) }
    ensures copied { result ≡ Status.Done
        → IsCopied buffer.old buffer.new (model.path_of (location_shown location.now)) }
    ensures short { result ≡ Status.Short → IsTooLong buffer.old (model.path_of (location_shown location.now)) }
    ensures uncopied { result ≢ Status.Done → buffer.new ≡ buffer.old }
    ensures ends { (result ≡ Status.Done) ⊎ (result ≡ Status.Short) }
{
    let path = path_of(location);
    *told = CLocation {
        path_length: path.len(),
        line: location.line.unwrap_or(0),
        column: location.column.unwrap_or(0),
        path_known: location.path.is_some(),
        line_known: location.line.is_some(),
        column_known: location.column.is_some(),
    };
    copy_path(path, buffer)
}

/// Fills in a frame, and copies its path to a buffer if it fits.
pub(crate) fn tell_frame(
    frame: &Frame<'static>,
    buffer: &mut [u8],
    told: &mut CFrame<'static>,
) -> Status
    ensures told { IsFrame (frame_shown frame.now) told.new }
    ensures copied { result ≡ Status.Done
        → IsCopied buffer.old buffer.new (model.path_of (frame_shown frame.now).location) }
    ensures short { result ≡ Status.Short → IsTooLong buffer.old (model.path_of (frame_shown frame.now).location) }
    ensures uncopied { result ≢ Status.Done → buffer.new ≡ buffer.old }
    ensures ends { (result ≡ Status.Done) ⊎ (result ≡ Status.Short) }
{
    told.name = frame.name.unwrap_or(b"");
    told.name_known = frame.name.is_some();
    tell_location(&frame.location, buffer, &mut told.location)
}

/// Fills in a piece, and copies its path to a buffer if it fits.
pub(crate) fn tell_piece(piece: &Piece, buffer: &mut [u8], told: &mut CPiece) -> Status
    ensures told { told.new ≡ piece_told (piece_shown piece.now) }
    ensures copied { result ≡ Status.Done
        → IsCopied buffer.old buffer.new (model.path_of (piece_shown piece.now).location) }
    ensures short { result ≡ Status.Short → IsTooLong buffer.old (model.path_of (piece_shown piece.now).location) }
    ensures uncopied { result ≢ Status.Done → buffer.new ≡ buffer.old }
    ensures ends { (result ≡ Status.Done) ⊎ (result ≡ Status.Short) }
{
    told.begin = piece.begin;
    told.end = piece.end;
    tell_location(&piece.location, buffer, &mut told.location)
}
