//! A board with one client and one worker on one thread.

ghost use Rattle.std.specs.Prelude.{◌≡◌, IfOk};
ghost use Rattle.ticket_board.specs.Seats.{IsClientOf, IsWorkerOf};

use crate::gates::{Open, Peek};
use crate::solver::Echo;
use std::alloc::Global;
use ticket_board::{AskFault, Board, BoardFault, Client, Next, Turn, Worker, open};
use ticket_core::{NoMemory, Query, QueryKind, Shape, Solver};

/// A board of which the last client and the last worker are used, with the worker's solver.
#[derive(Drop)]
pub struct BoardDesk {
    board: Board<'static, Echo>,
    client: Client<Echo>,
    worker: Worker<Echo>,
    solver: Echo,
    ghost client_seat: { IsClientOf board client },
    ghost worker_seat: { IsWorkerOf board worker },
    ghost same_key: { solver.key.now ≡ board.key },
}

/// A board with its last client and its last worker.
fn open_last<'a, S: Solver>(
    alloc: Global,
    shape: Shape,
    key: &'a [u8],
) -> Result<(Board<'a, S>, Client<S>, Worker<S>), BoardFault>
    ensures key { IfOk result (λ made. made.0.key ≡ key.now) }
    ensures client { IfOk result (λ made. IsClientOf made.0 made.1) }
    ensures worker { IfOk result (λ made. IsWorkerOf made.0 made.2) }
{
    let (board, mut clients, mut workers) = open::<S>(alloc, shape, key)?;
    let Some(client) = clients.pop() else {
        return Err(BoardFault::BadShape);
    };
    let Some(worker) = workers.pop() else {
        return Err(BoardFault::BadShape);
    };
    Ok((board, client, worker))
}

impl BoardDesk {
    /// The solver is refused memory in so many calls.
    pub fn new(
        alloc: Global,
        shape: Shape,
        key: &'static [u8],
        refusals: u64,
    ) -> Result<Self, BoardFault> {
        let (board, client, worker) = open_last::<Echo>(alloc, shape, key)?;
        Ok(BoardDesk {
            board,
            client,
            worker,
            solver: Echo::new(key, refusals),
        })
    }

    pub fn ask(&mut self, query: Query) -> Result<u64, AskFault> {
        self.client.ask(&self.board, query)
    }

    pub fn ready(&mut self) -> bool {
        self.client.ready(&self.board)
    }

    pub fn next(&mut self) -> Next<QueryKind> {
        self.client.next(&self.board)
    }

    pub fn close(&mut self) {
        self.client.close();
    }

    pub fn turn(&mut self) -> Result<Turn, NoMemory> {
        self.worker.turn(&self.board, &mut self.solver, &Open)
    }

    /// A turn, and the state word of the first cell while the worker is at the gate.
    pub fn turn_watched(&mut self) -> (Result<Turn, NoMemory>, Option<u64>) {
        let gate = Peek::new(&self.board);
        let turn = self.worker.turn(&self.board, &mut self.solver, &gate);
        (turn, gate.seen())
    }

    /// Has the worker's next turn begin at this cell.
    pub fn begin_at(&mut self, cell: usize) {
        self.worker.begin_at(cell);
    }

    /// The state word of a cell, and the sender and number that wait there.
    pub fn cell(&self, cell: usize) -> (Option<u64>, Option<(usize, u64)>) {
        (self.board.state_word(cell), self.board.waits_at(cell))
    }
}
