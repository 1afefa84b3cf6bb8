//! Spans of addresses, worked out by hand.

use crate::answers::{Question, Row, Wanted, expect_answers, expect_at_last};
use crate::expect::expect;
use dw_symbols::{Answer, Context, Piece};
use std::alloc::{AllocError, Global};
use std::process::Abort;
use std::test::Fail;
use test_inputs::files::sample;

/// The first address of a piece, its end, its path and its line.
pub type WantedPiece<'a> = (u64, u64, &'a [u8], u64);

/// The path of each piece here.
const PATH: &[u8] = b"/w/a.c";

/// The pieces of 0x401002 to 0x401006 in the sample.
const PIECES: &[WantedPiece<'_>] = &[
    (0x40_1002, 0x40_1004, PATH, 3),
    (0x40_1004, 0x40_1006, PATH, 4),
];

/// The pieces of all lines of the sample.
const WHOLE: &[WantedPiece<'_>] = &[
    (0x40_1000, 0x40_1004, PATH, 3),
    (0x40_1004, 0x40_100e, PATH, 4),
];

/// What a span means. No clause says what it is, so that its callers are proved soon.
pub fn span_at<'a>(
    context: &mut Context<'_, 'a>,
    low: u64,
    high: u64,
) -> Result<Answer<'a>, AllocError> {
    context.find_location_range(low, high)
}

fn expect_piece<A: Abort>(rt: &A, piece: &Piece, wanted: &WantedPiece<'_>) {
    let (begin, end, path, line) = *wanted;
    let location = &piece.location;
    expect(rt, begin, &(piece.begin, piece.end), &(begin, end));
    expect(rt, begin, &location.line, &Some(line));
    expect(rt, begin, &location.path.as_deref(), &Some(path));
}

/// An answer is of these pieces.
pub fn expect_pieces<A: Abort>(rt: &A, answer: &Answer<'_>, wanted: &[WantedPiece<'_>]) {
    let Answer::Pieces(pieces) = answer else {
        assert!(rt; false, "no pieces");
        return;
    };
    expect(rt, "pieces", &pieces.len(), &wanted.len());
    for (piece, wanted) in pieces.iter().zip(wanted.iter()) {
        expect_piece(rt, piece, wanted);
    }
}

/// Spans of the sample, of lines, of parts of them and of none.
static SPANS: [Row<'static>; 7] = [
    (Question::Span(0x40_0000, 0x50_0000), Wanted::Pieces(WHOLE)),
    (Question::Span(0x40_1002, 0x40_1006), Wanted::Pieces(PIECES)),
    (Question::Span(0, u64::MAX), Wanted::Pieces(WHOLE)),
    (
        Question::Span(0x40_1003, 0x40_1004),
        Wanted::Pieces(&[(0x40_1003, 0x40_1004, PATH, 3)]),
    ),
    (Question::Span(0x40_0000, 0x40_1000), Wanted::Pieces(&[])),
    (Question::Span(0x40_1000, 0x40_1000), Wanted::Pieces(&[])),
    (Question::Span(0x40_1004, 0x40_1000), Wanted::Pieces(&[])),
];

#[test]
fn spans_of_the_sample(rt: HostRuntime) -> Result<(), Fail> {
    let file = sample(rt.alloc())?;
    expect_answers(&rt, rt.alloc(), &file, &SPANS)
}

/// What is asked where an allocation is refused.
static REFUSED: [Row<'static>; 1] = [(Question::Span(0x40_0000, 0x50_0000), Wanted::Pieces(WHOLE))];

#[test]
fn each_allocation_refused(rt: HostRuntime) -> Result<(), Fail> {
    let Ok(file) = sample(rt.alloc()) else {
        return Ok(());
    };
    expect_at_last(&rt, rt.alloc(), &file, &REFUSED)
}
