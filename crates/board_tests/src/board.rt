//! Calls of a board, one after the other, by one client and one worker.

use crate::board_desk::BoardDesk;
use crate::queries::query_of;
use crate::solver::KEY;
use std::alloc::AllocError;
use std::process::Abort;
use std::test::Fail;
use ticket_board::{AskFault, BoardFault, Next, Turn};
use ticket_core::QueryKind::{Address, Span};
use ticket_core::{NoMemory, QueryKind, Shape};

/// A call of the client or of the worker, and what it returns.
#[derive(Drop)]
enum Call {
    Ask(QueryKind, Result<u64, AskFault>),
    Ready(bool),
    Next(Next<QueryKind>),
    Close,
    Turn(Result<Turn, NoMemory>),
}

/// Makes the call at an index of a table. It returns what it should.
fn make(rt: &impl Abort, desk: &mut BoardDesk, i: usize, call: &Call) {
    match call {
        Call::Ask(kind, wanted) => {
            let query = query_of(rt, *kind);
            assert_eq!(rt; desk.ask(query), *wanted, "call {i}");
        }
        Call::Ready(wanted) => assert_eq!(rt; desk.ready(), *wanted, "call {i}"),
        Call::Next(wanted) => assert_eq!(rt; desk.next(), *wanted, "call {i}"),
        Call::Close => desk.close(),
        Call::Turn(wanted) => assert_eq!(rt; desk.turn(), *wanted, "call {i}"),
    }
}

fn make_all(rt: &impl Abort, desk: &mut BoardDesk, calls: &[Call]) {
    for (i, call) in calls.iter().enumerate() {
        make(rt, desk, i, call);
    }
}

const ONE_CELL: Shape = Shape {
    senders: 1,
    workers: 1,
    window: 1,
    most: 10,
};

const IN_ONE_CELL: &[Call] = &[
    Call::Ask(Address(0x401000), Ok(0)),
    Call::Ask(Address(0x401004), Err(AskFault::Full)),
    Call::Next(Next::Pending),
    Call::Turn(Ok(Turn::Answered(0, 0))),
    Call::Ready(true),
    Call::Next(Next::Answer(0, Address(0x401000))),
    Call::Ready(false),
    Call::Ask(Address(0x401004), Ok(1)),
    Call::Turn(Ok(Turn::Answered(0, 1))),
    Call::Next(Next::Answer(1, Address(0x401004))),
    Call::Turn(Ok(Turn::Idle)),
    Call::Close,
    Call::Next(Next::Ended),
    Call::Next(Next::Ended),
    Call::Ask(Address(0x401004), Err(AskFault::Closed)),
];

#[test]
fn one_cell(rt: HostRuntime) -> Result<(), Fail> {
    let mut desk = BoardDesk::new(rt.alloc(), ONE_CELL, &KEY, 0)?;
    make_all(&rt, &mut desk, IN_ONE_CELL);
    Ok(())
}

/// A span between two addresses, of which the first is the span's first too.
const A_SPAN_BETWEEN: &[Call] = &[
    Call::Ask(Address(0x401000), Ok(0)),
    Call::Turn(Ok(Turn::Answered(0, 0))),
    Call::Next(Next::Answer(0, Address(0x401000))),
    Call::Ask(Span(0x401000, 0x40100e), Ok(1)),
    Call::Ask(Address(0x401004), Err(AskFault::Full)),
    Call::Next(Next::Pending),
    Call::Turn(Ok(Turn::Answered(0, 1))),
    Call::Ready(true),
    Call::Next(Next::Answer(1, Span(0x401000, 0x40100e))),
    Call::Ask(Address(0x401004), Ok(2)),
    Call::Turn(Ok(Turn::Answered(0, 2))),
    Call::Next(Next::Answer(2, Address(0x401004))),
    Call::Turn(Ok(Turn::Idle)),
    Call::Close,
    Call::Ask(Span(0x401000, 0x40100e), Err(AskFault::Closed)),
    Call::Next(Next::Ended),
];

/// The words of a span leave nothing back in their cell.
#[test]
fn a_span_in_one_cell(rt: HostRuntime) -> Result<(), Fail> {
    let mut desk = BoardDesk::new(rt.alloc(), ONE_CELL, &KEY, 0)?;
    make_all(&rt, &mut desk, A_SPAN_BETWEEN);
    Ok(())
}

const TO_THE_LIMITS: &[Call] = &[
    Call::Ask(Address(5), Ok(0)),
    Call::Ask(Address(6), Ok(1)),
    Call::Ask(Address(7), Err(AskFault::Exhausted)),
    Call::Turn(Ok(Turn::Answered(0, 0))),
    Call::Turn(Ok(Turn::Answered(0, 1))),
    Call::Next(Next::Answer(0, Address(5))),
    Call::Next(Next::Answer(1, Address(6))),
    Call::Next(Next::Pending),
    Call::Close,
    Call::Next(Next::Ended),
];

#[test]
fn limits(rt: HostRuntime) -> Result<(), Fail> {
    let shape = Shape {
        window: 2,
        most: 2,
        ..ONE_CELL
    };
    let mut desk = BoardDesk::new(rt.alloc(), shape, &KEY, 0)?;
    make_all(&rt, &mut desk, TO_THE_LIMITS);
    Ok(())
}

const FOUR_CELLS: Shape = Shape {
    window: 4,
    ..ONE_CELL
};

const WHOLE_WINDOW: &[Call] = &[
    Call::Ask(Address(100), Ok(0)),
    Call::Ask(Span(100, 101), Ok(1)),
    Call::Ask(Address(102), Ok(2)),
    Call::Ask(Address(103), Ok(3)),
    Call::Ask(Address(104), Err(AskFault::Full)),
    Call::Turn(Ok(Turn::Answered(0, 0))),
    Call::Turn(Ok(Turn::Answered(0, 1))),
    Call::Turn(Ok(Turn::Answered(0, 2))),
    Call::Turn(Ok(Turn::Answered(0, 3))),
    Call::Next(Next::Answer(0, Address(100))),
    Call::Next(Next::Answer(1, Span(100, 101))),
    Call::Next(Next::Answer(2, Address(102))),
    Call::Next(Next::Answer(3, Address(103))),
    Call::Next(Next::Pending),
];

/// A whole window is asked and answered before the first answer is received: the board has room for
/// it.
#[test]
fn whole_window(rt: HostRuntime) -> Result<(), Fail> {
    let mut desk = BoardDesk::new(rt.alloc(), FOUR_CELLS, &KEY, 0)?;
    make_all(&rt, &mut desk, WHOLE_WINDOW);
    Ok(())
}

/// The state words of the only cell of a window of 1 while a number is asked, at the gate of a
/// worker, answered, and received: eight times the number, and its phase.
const WORDS: [[u64; 4]; 2] = [[1, 2, 3, 8], [9, 10, 11, 16]];

/// The state word of the first cell, and the sender and number that wait there.
fn expect_cell(rt: &impl Abort, desk: &BoardDesk, word: u64, waits: Option<(usize, u64)>) {
    assert_eq!(rt; desk.cell(0), (Some(word), waits));
}

/// A number is asked, answered and received, while the cell has these words.
fn expect_words(rt: &impl Abort, desk: &mut BoardDesk, number: u64, words: [u64; 4]) {
    let [asked, taken, answered, received] = words;
    make(rt, desk, 0, &Call::Ask(Address(0x401000), Ok(number)));
    expect_cell(rt, desk, asked, Some((0, number)));
    let (turn, seen) = desk.turn_watched();
    assert_eq!(rt; turn, Ok(Turn::Answered(0, number)));
    assert_eq!(rt; seen, Some(taken));
    expect_cell(rt, desk, answered, None);
    make(
        rt,
        desk,
        1,
        &Call::Next(Next::Answer(number, Address(0x401000))),
    );
    expect_cell(rt, desk, received, None);
}

#[test]
fn words_of_one_cell(rt: HostRuntime) -> Result<(), Fail> {
    let mut desk = BoardDesk::new(rt.alloc(), ONE_CELL, &KEY, 0)?;
    expect_cell(&rt, &desk, 0, None);
    assert_eq!(rt; desk.cell(1), (None, None));
    for (number, words) in WORDS.iter().enumerate() {
        expect_words(&rt, &mut desk, number as u64, *words);
    }
    Ok(())
}

const FOUR_ASKED: &[Call] = &[
    Call::Ask(Address(0), Ok(0)),
    Call::Ask(Address(1), Ok(1)),
    Call::Ask(Address(2), Ok(2)),
    Call::Ask(Address(3), Ok(3)),
];

/// A turn begins at the cell that it is given, and goes round from there; past the last cell it
/// begins at the first.
#[test]
fn turns_begin_where_told(rt: HostRuntime) -> Result<(), Fail> {
    let mut desk = BoardDesk::new(rt.alloc(), FOUR_CELLS, &KEY, 0)?;
    make_all(&rt, &mut desk, FOUR_ASKED);
    for (cell, number) in [(2, 2), (2, 3), (3, 0), (4, 1)] {
        desk.begin_at(cell);
        assert_eq!(rt; desk.turn(), Ok(Turn::Answered(0, number)));
    }
    assert_eq!(rt; desk.turn(), Ok(Turn::Idle));
    Ok(())
}

const REFUSED_ONCE: &[Call] = &[
    Call::Ask(Span(0x401000, 0x401004), Ok(0)),
    Call::Turn(Err(AllocError)),
    Call::Next(Next::Pending),
    Call::Turn(Ok(Turn::Answered(0, 0))),
    Call::Next(Next::Answer(0, Span(0x401000, 0x401004))),
];

/// A query whose solver is refused memory is asked again.
#[test]
fn refuses_once(rt: HostRuntime) -> Result<(), Fail> {
    let mut desk = BoardDesk::new(rt.alloc(), ONE_CELL, &KEY, 1)?;
    make_all(&rt, &mut desk, REFUSED_ONCE);
    Ok(())
}

const BY_THE_SECOND: &[Call] = &[
    Call::Ask(Address(5), Ok(0)),
    Call::Turn(Ok(Turn::Answered(1, 0))),
    Call::Next(Next::Answer(0, Address(5))),
];

/// Where an allocation is refused in `open`, the same call with memory succeeds. No other call
/// takes memory. So this test passes under `rt try --test --fail-alloc N` for each N.
#[test]
fn each_allocation_refused(rt: HostRuntime) -> Result<(), Fail> {
    let shape = Shape {
        senders: 2,
        workers: 2,
        window: 2,
        most: 2,
    };
    let mut desk = match BoardDesk::new(rt.alloc(), shape, &KEY, 0) {
        Err(BoardFault::Memory) => BoardDesk::new(rt.alloc(), shape, &KEY, 0)?,
        made => made?,
    };
    make_all(&rt, &mut desk, BY_THE_SECOND);
    Ok(())
}
