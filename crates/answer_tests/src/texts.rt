//! The lines that are written for addresses and for units, worked out by hand.

ghost use Rattle.std.specs.Prelude.{◌≡◌, None, IfOk};

use crate::contexts::image_of;
use a2l_lines::{
    Failed, Options, Resources, RunFault, Sink, Source, Status, list_units, symbolize,
};
use dw_elf::{Elf, OpenFault};
use dw_symbols::Image;
use dw_units::Units;
use std::alloc::{AllocError, Global};
use std::process::Abort;
use std::sync::Wait;
use std::test::Fail;
use std::thread::Threads;
use test_inputs::files::sample;
use ticket_board::Gate;
use ticket_core::Query;

/// No input.
#[derive(Drop)]
struct Nothing;

impl Source for Nothing {
    ghost failures = { λ _. 0 };

    ghost left = { λ _. None };

    fn read(&mut self, _buffer: &mut [u8]) -> Result<usize, Failed> {
        Ok(0)
    }
}

/// Compares what is written with a text, of which so much is left.
#[derive(Drop)]
struct Compared<'a> {
    left: &'a [u8],
    differs: bool,
}

impl Sink for Compared<'_> {
    ghost failures = { λ _. 0 };

    ghost told = { λ _. None };

    fn write(&mut self, piece: &[u8]) -> Result<usize, Failed> {
        let count = piece.len().min(self.left.len());
        let (front, rest) = self.left.split_at(count);
        if front != piece {
            self.differs = true;
        }
        self.left = rest;
        Ok(piece.len())
    }
}

impl<'a> Compared<'a> {
    fn new(text: &'a str) -> Self {
        Compared {
            left: text.as_bytes(),
            differs: false,
        }
    }

    /// The text was written, and nothing else.
    fn is_whole(&self) -> bool {
        self.left.is_empty() && !self.differs
    }
}

/// A gate that is open.
#[derive(Drop)]
pub struct Open;

impl Gate for Open {
    fn enter(&self, _sender: usize, _number: u64, _query: Query) {}
}

/// Which of `-f`, `-i` and `-a` are asked for.
#[derive(Clone, Copy)]
pub struct Flags {
    functions: bool,
    inlines: bool,
    addresses: bool,
}

/// What is asked for by words, and the lines that answer it.
#[derive(Clone, Copy)]
pub struct Asked<'a> {
    pub flags: Flags,
    pub words: &'a [&'a str],
    pub text: &'a str,
}

pub const PLAIN: Flags = Flags {
    functions: false,
    inlines: false,
    addresses: false,
};

const FRAMES: Flags = Flags {
    functions: true,
    inlines: true,
    addresses: false,
};

/// What is asked for, of two workers by one sender.
fn options<'a>(alloc: Global, asked: &Asked<'a>) -> Result<Options<'a>, AllocError>
    ensures workers { IfOk result (λ options. options.workers ≡ 2) }
    ensures senders { IfOk result (λ options. options.senders ≡ 1) }
{
    Ok(Options {
        functions: asked.flags.functions,
        inlines: asked.flags.inlines,
        addresses: asked.flags.addresses,
        workers: 2,
        senders: 1,
        words: Vec::from_slice(alloc, asked.words)?,
    })
}

/// Answers the addresses that are asked for in an image, and says how that ended; where the lines
/// aren't those, it says nothing.
fn status_in<T: Threads + Wait + Sync, G: Gate + Sync>(
    rt: &T,
    alloc: Global,
    image: &Image<'_>,
    asked: &Asked<'_>,
    gate: &G,
) -> Result<Option<Status>, RunFault> {
    let options = options(alloc, asked)?;
    let mut lines = Compared::new(asked.text);
    let on = Resources {
        threads: rt,
        alloc,
        processors: 4,
    };
    let status = symbolize(&on, &mut Nothing, &mut lines, image, &options, gate)?;
    Ok(lines.is_whole().then_some(status))
}

/// The same of a file.
pub fn status_of<T: Threads + Wait + Sync, G: Gate + Sync>(
    rt: &T,
    alloc: Global,
    file: &[u8],
    asked: &Asked<'_>,
    gate: &G,
) -> Result<Option<Status>, Fail> {
    let image = image_of(alloc, file)?;
    Ok(status_in(rt, alloc, &image, asked, gate)?)
}

/// Addresses, and a span between them.
const SPANNED: Asked<'static> = Asked {
    flags: FRAMES,
    words: &["401006", "401002-401006", "40100e"],
    text: "mid\n/w/a.c:4\nmain\n/w/z.c:20\n\
        0x0000000000401002-0x0000000000401004 /w/a.c:3\n0x0000000000401004-0x0000000000401006 /w/a.c:4\n\
        ??\n??:0\n",
};

/// The units of a file.
fn units_of<'a>(alloc: Global, file: &'a [u8]) -> Result<Units<'a>, OpenFault> {
    let elf = Elf::open(file)?;
    Units::read(alloc, &elf)
}

const UNITS: &str = "0x0 version 5 compile\n0x5b version 5 partial\n0x6e version 5 compile\n";

/// Lists units. No clause says what is written, so that its callers are proved soon.
fn list(alloc: Global, lines: &mut Compared<'_>, units: &Units<'_>) -> Result<(), RunFault> {
    list_units(alloc, lines, units)
}

/// Answers what is asked for, in the same way.
fn answer<T: Threads + Wait + Sync>(
    rt: &T,
    alloc: Global,
    lines: &mut Compared<'_>,
    image: &Image<'_>,
    options: &Options<'_>,
) -> Result<Status, RunFault>
    requires workers { options.now.workers ≡ 2 }
    requires senders { options.now.senders ≡ 1 }
{
    let on = Resources {
        threads: rt,
        alloc,
        processors: 4,
    };
    symbolize(&on, &mut Nothing, lines, image, options, &Open)
}

/// Answers what is asked for, once more where an allocation or a thread was refused, and writes all
/// lines.
fn is_answered_at_last<T: Threads + Wait + Sync>(
    rt: &T,
    alloc: Global,
    image: &Image<'_>,
    options: &Options<'_>,
    text: &str,
) -> Result<bool, RunFault>
    requires workers { options.now.workers ≡ 2 }
    requires senders { options.now.senders ≡ 1 }
{
    let mut lines = Compared::new(text);
    let status = match answer(rt, alloc, &mut lines, image, options) {
        Err(RunFault::Memory) => answer(rt, alloc, &mut lines, image, options)?,
        status => status?,
    };
    Ok(lines.is_whole() && status == Status::Clean)
}

/// Lists units, once more where an allocation was refused, and writes all lines.
fn is_listed_at_last(alloc: Global, units: &Units<'_>, text: &str) -> Result<bool, RunFault> {
    let mut lines = Compared::new(text);
    match list(alloc, &mut lines, units) {
        Err(RunFault::Memory) => list(alloc, &mut lines, units)?,
        written => written?,
    }
    Ok(lines.is_whole())
}

/// An image is answered at last.
fn expect_answered_at_last<R: Threads + Wait + Sync + Abort>(
    rt: &R,
    alloc: Global,
    image: &Image<'_>,
) -> Result<(), RunFault> {
    let Ok(options) = options(alloc, &SPANNED) else {
        return Ok(());
    };
    assert!(rt; is_answered_at_last(rt, alloc, image, &options, SPANNED.text)?);
    Ok(())
}

/// The units of a file are listed at last.
fn expect_listed_at_last<A: Abort>(rt: &A, alloc: Global, file: &[u8]) -> Result<(), RunFault> {
    let Ok(units) = units_of(alloc, file) else {
        return Ok(());
    };
    assert!(rt; is_listed_at_last(alloc, &units, UNITS)?);
    Ok(())
}

/// Where an allocation or a thread is refused, answering and listing are out of memory, and nothing
/// is written; the same call, with memory, writes all lines.
#[test]
fn each_allocation_refused(rt: HostRuntime) -> Result<(), Fail> {
    let Ok(file) = sample(rt.alloc()) else {
        return Ok(());
    };
    let Ok(image) = image_of(rt.alloc(), &file) else {
        return Ok(());
    };
    expect_answered_at_last(&rt, rt.alloc(), &image)?;
    expect_listed_at_last(&rt, rt.alloc(), &file)?;
    Ok(())
}
