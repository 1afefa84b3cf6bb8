//! What is asked of a file and what is answered, row by row, by a context that keeps one unit. A
//! function that owns an image or a context is long where it is proved, so those that do stand here
//! once, and the tests have rows.

use crate::contexts::{
    WantedFrame, context_at_last, context_of, expect_frames, frames_at, image_of, location_at,
    open_at_last,
};
use crate::expect::expect;
use crate::spans::{WantedPiece, expect_pieces, span_at};
use dw_symbols::{Answer, Context, Image, UnitFault};
use std::alloc::{AllocError, Global};
use std::process::Abort;
use std::test::Fail;

/// What is asked of a context.
#[derive(Clone, Copy)]
pub enum Question {
    /// The frames at an address.
    Frames(u64),
    /// The location at an address alone.
    Location(u64),
    /// The pieces of a span, from its first address to its end.
    Span(u64, u64),
}

/// What is answered. Units are told by their offset.
#[derive(Clone, Copy)]
pub enum Wanted<'a> {
    NotCovered,
    /// The unit that can't be read, and why.
    Fault(u64, UnitFault),
    /// The unit, and its frames.
    Frames(u64, &'a [WantedFrame<'a>]),
    Pieces(&'a [WantedPiece<'a>]),
}

/// What is asked, and what is answered.
pub type Row<'a> = (Question, Wanted<'a>);

/// An answer is that a unit can't be read, for this reason.
fn expect_fault<A: Abort>(rt: &A, answer: &Answer<'_>, wanted: (u64, UnitFault)) {
    let Answer::Fault { unit, code } = answer else {
        assert!(rt; false, "no fault");
        return;
    };
    expect(rt, unit, &(*unit, *code), &wanted);
}

/// An answer is as it is wanted.
pub fn expect_answer<A: Abort>(rt: &A, answer: &Answer<'_>, wanted: &Wanted<'_>) {
    match *wanted {
        Wanted::NotCovered => assert!(rt; matches!(answer, Answer::NotCovered)),
        Wanted::Fault(unit, code) => expect_fault(rt, answer, (unit, code)),
        Wanted::Frames(unit, frames) => expect_frames(rt, answer, unit, frames),
        Wanted::Pieces(pieces) => expect_pieces(rt, answer, pieces),
    }
}

/// Asks a context.
fn answer_of<'a>(
    context: &mut Context<'_, 'a>,
    question: Question,
) -> Result<Answer<'a>, AllocError> {
    match question {
        Question::Frames(a) => frames_at(context, a),
        Question::Location(a) => location_at(context, a),
        Question::Span(low, high) => span_at(context, low, high),
    }
}

/// A context answers each row, one after the other.
fn expect_of_context<A: Abort>(
    rt: &A,
    context: &mut Context<'_, '_>,
    rows: &[Row<'_>],
) -> Result<(), AllocError> {
    for (question, wanted) in rows {
        expect_answer(rt, &answer_of(context, *question)?, wanted);
    }
    Ok(())
}

/// One context over an image answers each row.
fn expect_of_image<A: Abort>(
    rt: &A,
    alloc: Global,
    image: &Image<'_>,
    rows: &[Row<'_>],
) -> Result<(), AllocError> {
    let mut context = context_of(alloc, image)?;
    expect_of_context(rt, &mut context, rows)
}

/// One context over a file answers each row.
pub fn expect_answers<A: Abort>(
    rt: &A,
    alloc: Global,
    file: &[u8],
    rows: &[Row<'_>],
) -> Result<(), Fail> {
    let image = image_of(alloc, file)?;
    Ok(expect_of_image(rt, alloc, &image, rows)?)
}

/// Asks once more where memory was refused.
fn answer_at_last<'a>(
    context: &mut Context<'_, 'a>,
    question: Question,
) -> Result<Answer<'a>, AllocError> {
    let Ok(answer) = answer_of(context, question) else {
        return answer_of(context, question);
    };
    Ok(answer)
}

/// A context answers each row at last.
fn expect_of_context_at_last<A: Abort>(
    rt: &A,
    context: &mut Context<'_, '_>,
    rows: &[Row<'_>],
) -> Result<(), AllocError> {
    for (question, wanted) in rows {
        expect_answer(rt, &answer_at_last(context, *question)?, wanted);
    }
    Ok(())
}

/// One context over an image answers each row at last.
fn expect_of_image_at_last<A: Abort>(
    rt: &A,
    alloc: Global,
    image: &Image<'_>,
    rows: &[Row<'_>],
) -> Result<(), AllocError> {
    let mut context = context_at_last(alloc, image)?;
    expect_of_context_at_last(rt, &mut context, rows)
}

/// Where an allocation is refused, opening and asking are out of memory and nothing else; the same
/// call, with memory, is right.
pub fn expect_at_last<A: Abort>(
    rt: &A,
    alloc: Global,
    file: &[u8],
    rows: &[Row<'_>],
) -> Result<(), Fail> {
    let image = open_at_last(alloc, file)?;
    Ok(expect_of_image_at_last(rt, alloc, &image, rows)?)
}
