//! A board of one cell over the sample, whose worker answers by a context: a query whose answer was
//! refused memory is answered by a later turn.

ghost use Rattle.std.specs.Prelude.{◌≡◌};
ghost use Rattle.std.specs.List.{AllByRecursion};
ghost use Rattle.ticket_board.specs.Seats.{IsClientOf, IsWorkerOf};

use crate::answers::{Wanted, expect_answer};
use crate::contexts::{INLINED, context_at_last, open_at_last};
use crate::expect::expect;
use crate::texts::Open;
use dw_symbols::{Answer, Context, Image};
use std::alloc::{AllocError, Global};
use std::process::Abort;
use std::test::Fail;
use test_inputs::files::sample;
use ticket_board::{AskFault, Board, Client, Next, Turn, Worker, open};
use ticket_core::{NoMemory, Query, Shape, Solver};

const ONE_CELL: Shape = Shape {
    senders: 1,
    workers: 1,
    window: 1,
    most: 10,
};

/// A number was answered, and this is its answer.
fn expect_answered<'a, 'c, S: Solver<Answer = Answer<'c>>>(
    rt: &impl Abort,
    board: &Board<'a, S>,
    client: &mut Client<S>,
    number: u64,
    wanted: &Wanted<'_>,
)
    requires { IsClientOf board.now client.old }
    ensures { IsClientOf board.now client.new }
{
    assert!(rt; client.ready(board));
    let Next::Answer(found, answer) = client.next(board) else {
        assert!(rt; false, "no answer");
        return;
    };
    expect(rt, "answered", &found, &number);
    expect_answer(rt, &answer, wanted);
}

/// A client that received everything ends.
fn expect_end<'a, S: Solver>(rt: &impl Abort, board: &Board<'a, S>, client: &mut Client<S>)
    requires { IsClientOf board.now client.old }
{
    client.close();
    assert!(rt; matches!(client.next(board), Next::Ended));
    assert!(rt; matches!(client.next(board), Next::Ended));
    let refused = client.ask(board, Query::address(0x40_1004));
    expect(rt, "closed", &refused, &Err(AskFault::Closed));
}

/// A worker's turn ends so.
fn expect_turn<'a, S: Solver>(
    rt: &impl Abort,
    board: &Board<'a, S>,
    worker: &mut Worker<S>,
    solver: &mut S,
    wanted: Turn,
)
    requires worker { IsWorkerOf board.now worker.old }
    requires key { S.key solver.old ≡ board.now.key }
    ensures worker { IsWorkerOf board.now worker.new }
    ensures key { S.key solver.new ≡ board.now.key }
{
    let turn = worker.turn(board, solver, &Open);
    expect(rt, "turn", &turn, &Ok(wanted));
}

/// Answers number 0, which is asked. A turn that is refused memory gives it back, and the next one
/// answers it.
fn answer_at_last<'a, S: Solver>(
    rt: &impl Abort,
    board: &Board<'a, S>,
    client: &mut Client<S>,
    worker: &mut Worker<S>,
    solver: &mut S,
)
    requires client { IsClientOf board.now client.old }
    requires worker { IsWorkerOf board.now worker.old }
    requires key { S.key solver.old ≡ board.now.key }
    ensures client { IsClientOf board.now client.new }
    ensures worker { IsWorkerOf board.now worker.new }
    ensures key { S.key solver.new ≡ board.now.key }
{
    let Err(NoMemory) = worker.turn(board, solver, &Open) else {
        return;
    };
    assert!(rt; matches!(client.next(board), Next::Pending));
    expect_turn(rt, board, worker, solver, Turn::Answered(0, 0));
}

/// The answer to 0x401004, which is given once.
fn expect_one<'a, 'c, S: Solver<Answer = Answer<'c>>>(
    rt: &impl Abort,
    board: &Board<'a, S>,
    client: &mut Client<S>,
    worker: &mut Worker<S>,
    solver: &mut S,
)
    requires client { IsClientOf board.now client.old }
    requires worker { IsWorkerOf board.now worker.old }
    requires key { S.key solver.old ≡ board.now.key }
    ensures key { S.key solver.new ≡ board.now.key }
{
    let asked = client.ask(board, Query::address(0x40_1004));
    expect(rt, "asked", &asked, &Ok(0));
    answer_at_last(rt, board, client, worker, solver);
    expect_turn(rt, board, worker, solver, Turn::Idle);
    expect_answered(rt, board, client, 0, &Wanted::Frames(0, INLINED));
    expect_end(rt, board, client);
}

/// What the only client and the only worker do.
fn expect_cell<'a, 'c, S: Solver<Answer = Answer<'c>>>(
    rt: &impl Abort,
    board: &Board<'a, S>,
    clients: &mut Vec<Client<S>>,
    workers: &mut Vec<Worker<S>>,
    solver: &mut S,
)
    requires clients { AllByRecursion (IsClientOf board.now) clients.old.items }
    requires workers { AllByRecursion (IsWorkerOf board.now) workers.old.items }
    requires key { S.key solver.old ≡ board.now.key }
    ensures key { S.key solver.new ≡ board.now.key }
{
    let Some(mut client) = clients.pop() else {
        assert!(rt; false, "no client");
        return;
    };
    let Some(mut worker) = workers.pop() else {
        assert!(rt; false, "no worker");
        return;
    };
    expect_one(rt, board, &mut client, &mut worker, solver);
}

/// Whether a board is opened, whose client and worker do this then.
fn is_opened<'c, S: Solver<Answer = Answer<'c>>>(
    rt: &impl Abort,
    alloc: Global,
    key: &[u8],
    solver: &mut S,
) -> bool
    requires { S.key solver.old ≡ key.now }
    ensures { S.key solver.new ≡ key.now }
{
    let Ok((board, mut clients, mut workers)) = open(alloc, ONE_CELL, key) else {
        return false;
    };
    expect_cell(rt, &board, &mut clients, &mut workers, solver);
    true
}

/// A board is opened by a context over an image, by the second call at the latest.
fn expect_board(rt: &impl Abort, alloc: Global, image: &Image<'_>) -> Result<(), AllocError> {
    let mut context = context_at_last(alloc, image)?;
    let key = context.bytes();
    if is_opened(rt, alloc, key, &mut context) {
        return Ok(());
    }
    assert!(rt; is_opened(rt, alloc, key, &mut context), "no board");
    Ok(())
}

/// Where an allocation is refused, a board isn't opened, or a turn is out of memory; the same call,
/// with memory, opens it, and the next turn answers the number.
#[test]
fn each_allocation_refused(rt: HostRuntime) -> Result<(), Fail> {
    let Ok(file) = sample(rt.alloc()) else {
        return Ok(());
    };
    let image = open_at_last(rt.alloc(), &file)?;
    Ok(expect_board(&rt, rt.alloc(), &image)?)
}
