//! Answers of files, worked out by hand, files that are refused, and units that can't be read.

use crate::answers::{Question, Row, Wanted, expect_answers, expect_at_last};
use crate::expect::expect;
use dw_elf::{Name, OpenFault};
use dw_symbols::{Answer, Context, Frame, Image, UnitFault};
use std::alloc::{AllocError, Global};
use std::num::NonZeroUsize;
use std::process::Abort;
use std::slice::from_ref;
use std::test::Fail;
use test_inputs::files::{ABBREVS, INFO, file_of, poked, sample, with_lines};

/// The name of a frame, and its path, line and column.
pub type WantedFrame<'a> = (Option<&'a [u8]>, Option<&'a [u8]>, Option<u64>, Option<u64>);

/// The frames at 0x401004 of the sample, and where that address comes from.
pub const INLINED: &[WantedFrame<'_>] = &[
    (Some(b"leaf"), Some(b"/w/a.c"), Some(4), Some(0)),
    (Some(b"mid"), Some(b"/w/a.c"), Some(30), None),
    (Some(b"main"), Some(b"/w/z.c"), Some(20), Some(7)),
];

/// The frames at 0x401000 of the sample.
pub const IN_MAIN: &[WantedFrame<'_>] = &[(Some(b"main"), Some(b"/w/a.c"), Some(3), Some(0))];

const LINE: &[WantedFrame<'_>] = &[(None, Some(b"/w/a.c"), Some(4), Some(0))];

/// The frame where nothing is known.
const UNKNOWN: &[WantedFrame<'_>] = &[(None, None, None, None)];

/// A frame of a unit is as it is wanted.
fn expect_frame<A: Abort>(rt: &A, unit: u64, frame: &Frame<'_>, wanted: &WantedFrame<'_>) {
    let (name, path, line, column) = wanted;
    let location = &frame.location;
    expect(rt, unit, &frame.name, name);
    expect(rt, unit, &location.path.as_deref(), path);
    let place = (location.line, location.column);
    expect(rt, unit, &place, &(*line, *column));
}

/// An answer is of a unit and has these frames.
pub fn expect_frames<A: Abort>(rt: &A, answer: &Answer<'_>, unit: u64, wanted: &[WantedFrame<'_>]) {
    let Answer::Found {
        unit: found,
        frames,
    } = answer
    else {
        assert!(rt; false, "no frames");
        return;
    };
    expect(rt, unit, found, &unit);
    expect(rt, "frames", &frames.len(), &wanted.len());
    for (frame, wanted) in frames.iter().zip(wanted.iter()) {
        expect_frame(rt, unit, frame, wanted);
    }
}

/// A file, opened. No clause says what it means, so that its callers are proved soon.
pub fn image_of<'a>(alloc: Global, file: &'a [u8]) -> Result<Image<'a>, OpenFault> {
    Image::open(alloc, file)
}

/// A context that keeps one unit, in the same way.
pub fn context_of<'b, 'a>(
    alloc: Global,
    image: &'b Image<'a>,
) -> Result<Context<'b, 'a>, AllocError> {
    Context::new(alloc, image, NonZeroUsize::MIN)
}

/// The frames at an address, in the same way.
pub fn frames_at<'a>(context: &mut Context<'_, 'a>, a: u64) -> Result<Answer<'a>, AllocError> {
    context.find_frames(a)
}

/// The location at an address, in the same way.
pub fn location_at<'a>(context: &mut Context<'_, 'a>, a: u64) -> Result<Answer<'a>, AllocError> {
    context.find_location(a)
}

/// What the sample answers, whose units come and go.
static UNITS: [Row<'static>; 6] = [
    (Question::Frames(0x40_1004), Wanted::Frames(0, INLINED)),
    (Question::Frames(0x50_0001), Wanted::Frames(0x6e, UNKNOWN)),
    (Question::Frames(0x40_1004), Wanted::Frames(0, INLINED)),
    (Question::Location(0x40_1004), Wanted::Frames(0, LINE)),
    (Question::Frames(0x50_0004), Wanted::NotCovered),
    (Question::Location(0x50_0004), Wanted::NotCovered),
];

#[test]
fn units_of_the_sample(rt: HostRuntime) -> Result<(), Fail> {
    let file = sample(rt.alloc())?;
    expect_answers(&rt, rt.alloc(), &file, &UNITS)
}

/// A byte of the sample and another one in its place, and why the file is refused then.
static REFUSED_FILES: [(usize, u8, OpenFault); 9] = [
    (0, 0, OpenFault::NotElf),
    (4, 1, OpenFault::NotElf64Little),
    (16, 1, OpenFault::Relocatable),
    (58, 63, OpenFault::SectionTable),
    // the size of .debug_line, and its flags
    (289, 4, OpenFault::SectionRange(Name::DebugLine)),
    (265, 8, OpenFault::Compressed(Name::DebugLine)),
    // the first unit's length, its size of addresses, and the code of its first entry
    (384, 0x58, OpenFault::UnitHeader(0x5c)),
    (391, 4, OpenFault::AddressSize(0)),
    (396, 9, OpenFault::Root(0)),
];

/// Why a file can't be opened where a byte is changed.
fn refusal_of(alloc: Global, file: &[u8], at: usize, byte: u8) -> Result<Option<OpenFault>, Fail> {
    let changed = poked(alloc, file, at, byte)?;
    Ok(image_of(alloc, &changed).err())
}

#[test]
fn refused_files(rt: HostRuntime) -> Result<(), Fail> {
    let file = sample(rt.alloc())?;
    for (at, byte, fault) in &REFUSED_FILES {
        let found = refusal_of(rt.alloc(), &file, *at, *byte)?;
        expect(&rt, at, &found, &Some(*fault));
    }
    Ok(())
}

/// Where the first unit of the sample has the first entry below its own, where the code of `main`
/// is, and where the form of its DW_AT_low_pc is among the declarations.
const FIRST_CHILD: usize = 29;

const MAIN: usize = 0x23;

const LOW_PC_FORM: usize = 17;

/// The code of a block, as often as blocks are in one another.
static BLOCKS: [u8; 513] = [4; 513];

/// The sample's units, the first of them with blocks in one another, of which the last is below 513
/// entries.
fn deep(alloc: Global) -> Result<Vec<u8>, AllocError> {
    let (front, rest) = INFO.split_at(FIRST_CHILD);
    let mut info = Vec::from_slice(alloc, &[0x58, 2])?;
    info.extend_from_slice(front.split_at(2).1)?;
    info.extend_from_slice(&BLOCKS)?;
    info.extend_from_slice(rest)?;
    Ok(info)
}

/// A file whose unit at 0 can't be read, for this reason.
fn unreadable(alloc: Global, fault: UnitFault) -> Result<Vec<u8>, Fail> {
    match fault {
        // no declaration has this code
        UnitFault::Entry => {
            let info = poked(alloc, INFO, MAIN, 0x63)?;
            Ok(with_lines(alloc, &info, ABBREVS)?)
        }
        UnitFault::Depth => {
            let info = deep(alloc)?;
            Ok(with_lines(alloc, &info, ABBREVS)?)
        }
        // DW_FORM_addrx leads into .debug_addr, which isn't there
        UnitFault::Ranges => {
            let abbrevs = poked(alloc, ABBREVS, LOW_PC_FORM, 0x1b)?;
            Ok(with_lines(alloc, INFO, &abbrevs)?)
        }
        UnitFault::Line => Ok(file_of(alloc, INFO, ABBREVS)?),
    }
}

/// Why a unit can't be read, what is asked of it then, and the same fault as an answer. A location
/// and a span need the lines alone.
static FAULTS: [(UnitFault, Row<'static>); 6] = [
    (
        UnitFault::Entry,
        (
            Question::Frames(0x40_1000),
            Wanted::Fault(0, UnitFault::Entry),
        ),
    ),
    (
        UnitFault::Depth,
        (
            Question::Frames(0x40_1000),
            Wanted::Fault(0, UnitFault::Depth),
        ),
    ),
    (
        UnitFault::Ranges,
        (
            Question::Frames(0x40_1000),
            Wanted::Fault(0, UnitFault::Ranges),
        ),
    ),
    (
        UnitFault::Line,
        (
            Question::Frames(0x40_1000),
            Wanted::Fault(0, UnitFault::Line),
        ),
    ),
    (
        UnitFault::Line,
        (
            Question::Location(0x40_1000),
            Wanted::Fault(0, UnitFault::Line),
        ),
    ),
    (
        UnitFault::Line,
        (
            Question::Span(0x40_0000, 0x40_1001),
            Wanted::Fault(0, UnitFault::Line),
        ),
    ),
];

#[test]
fn faults_of_units(rt: HostRuntime) -> Result<(), Fail> {
    for (fault, row) in &FAULTS {
        let file = unreadable(rt.alloc(), *fault)?;
        expect_answers(&rt, rt.alloc(), &file, from_ref(row))?;
    }
    Ok(())
}

/// A file, opened once more where memory was refused.
pub fn open_at_last<'a>(alloc: Global, file: &'a [u8]) -> Result<Image<'a>, OpenFault> {
    let opened = image_of(alloc, file);
    let Err(OpenFault::Memory) = opened else {
        return opened;
    };
    image_of(alloc, file)
}

/// A context that keeps one unit, made once more where memory was refused.
pub fn context_at_last<'b, 'a>(
    alloc: Global,
    image: &'b Image<'a>,
) -> Result<Context<'b, 'a>, AllocError> {
    let Ok(context) = context_of(alloc, image) else {
        return context_of(alloc, image);
    };
    Ok(context)
}

/// What is asked where an allocation is refused.
static REFUSED: [Row<'static>; 3] = [
    (Question::Frames(0x40_1004), Wanted::Frames(0, INLINED)),
    (Question::Frames(0x50_0001), Wanted::Frames(0x6e, UNKNOWN)),
    (Question::Location(0x40_1004), Wanted::Frames(0, LINE)),
];

#[test]
fn each_allocation_refused(rt: HostRuntime) -> Result<(), Fail> {
    let Ok(file) = sample(rt.alloc()) else {
        return Ok(());
    };
    expect_at_last(&rt, rt.alloc(), &file, &REFUSED)
}
