//! A worker: it takes queries, solves them, and answers them.

ghost use Rattle.std.specs.Prelude.{◌≡◌, ◌+◌, ◌*◌, ◌≤◌, ◌<◌};
ghost use Rattle.ticket_board.specs.Ring.Layout.{cells_in};
ghost use Rattle.ticket_board.specs.Seats.{IsWorkerOf, WorkerOccurs};
ghost use Rattle.ticket_board.specs.Outcome.{HasTurned, refused_after};

use crate::board::Board;
use crate::gate::Gate;
use crate::outcome::Turn;
use crate::ring::Taker;
use dw_bytes::Steps;
use std::marker::{Brand, Model};
use std::sync::ledger::{Blank, Ledger};
use ticket_core::{NoMemory, Solver};

/// A worker. Contracts see its hand, which is empty between its turns, the cells that gave it
/// nothing, the numbers that it answered, and those that it gave back.
#[derive(Drop)]
pub struct Worker<S: Solver> {
    pub(crate) taker: Taker<S>,
}

impl<S: Solver> Model for Worker<S> {
    ghost use Rattle.std.specs.Prelude.{◌≡◌, None};
    ghost use Rattle.ticket_board.specs.Seats.{WorkerState, worker_shown};

    ghost Value = { WorkerState };

    ghost view = { λ worker. worker_shown worker.taker };

    ghost invariant = { λ worker. worker.taker.working.hand ≡ None };
}

impl<S: Solver> Worker<S> {
    /// Has the next turn begin at this cell, and go round from there. It makes no step.
    pub fn begin_at(&mut self, cell: usize)
        ensures stays { self.new ≡ self.old }
    {
        self.taker.begin_at(cell);
    }

    /// Takes a query, solves it and answers it. `Idle` says that no cell gave it a query in one
    /// pass over all of them. It waits for nobody, and takes no memory of its own.
    ///
    /// The error is the solver's alone: it was out of memory, and the number that was taken is
    /// given back, so it waits again. The solver's key has to be the board's.
    pub fn turn<'a, G: Gate>(
        &mut self,
        board: &Board<'a, S>,
        solver: &mut S,
        gate: &G,
    ) -> Result<Turn, NoMemory>
        requires board { IsWorkerOf board.now self.old }
        requires key { S.key solver.old ≡ board.now.key }
        ensures turned { HasTurned board.now.shape result self.old self.new }
        ensures key { S.key solver.new ≡ S.key solver.old }
        ensures refused { S.refused solver.new ≡ refused_after result (S.refused solver.old) }
    {
        self.turn_uncounted::<G, Brand>(board, solver, gate, Blank::new(1))
    }

    /// Whatever was called before, some moves make a board on which a worker's lists are those of
    /// this one; and by `law_of_board`, what it has done is what its own moves answered, in their
    /// order, and each of these numbers was answered by just one of all the moves. It does nothing.
    pub fn law_of_worker(&self)
        ensures occurs { WorkerOccurs S.meaning self.now }
    {
        self.taker.law_of_taker();
    }

    /// The same as `turn`, with a counter of its own.
    fn turn_uncounted<'a, G: Gate, L: Ledger>(
        &mut self,
        board: &Board<'a, S>,
        solver: &mut S,
        gate: &G,
        blank: Blank,
    ) -> Result<Turn, NoMemory>
        requires blank { (blank.name ≡ L.name) × (blank.parts ≡ L.parts) × (0 < L.parts) }
        requires board { IsWorkerOf board.now self.old }
        requires key { S.key solver.old ≡ board.now.key }
        ensures turned { HasTurned board.now.shape result self.old self.new }
        ensures key { S.key solver.new ≡ S.key solver.old }
        ensures refused { S.refused solver.new ≡ refused_after result (S.refused solver.old) }
    {
        let mut steps = Steps::<L>::new(blank);
        self.turn_counted(board, solver, gate, &mut steps)
    }

    /// A turn, as `turn` makes it. A step is one load, store or compare-exchange of a word of the
    /// board.
    pub fn turn_counted<'a, G: Gate, L: Ledger>(
        &mut self,
        board: &Board<'a, S>,
        solver: &mut S,
        gate: &G,
        steps: &mut Steps<L>,
    ) -> Result<Turn, NoMemory>
        requires board { IsWorkerOf board.now self.old }
        requires key { S.key solver.old ≡ board.now.key }
        ensures turned { HasTurned board.now.shape result self.old self.new }
        ensures key { S.key solver.new ≡ S.key solver.old }
        ensures refused { S.refused solver.new ≡ refused_after result (S.refused solver.old) }
        ensures counted { steps.new ≤ steps.old + 2 * cells_in board.now.shape + 4 }
    {
        let Some((sender, number, query)) = self.taker.take(&board.ring, steps) else {
            return Ok(Turn::Idle);
        };
        gate.enter(sender, number, query);
        match solver.solve(query) {
            Ok(answer) => {
                self.taker.answer(&board.ring, answer, steps);
                Ok(Turn::Answered(sender, number))
            }
            Err(error) => {
                self.taker.give_back(&board.ring, steps);
                Err(error)
            }
        }
    }
}
