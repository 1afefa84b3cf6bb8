//! What a worker's thread does.

ghost use Rattle.std.specs.Prelude.{◌≡◌, OnOk};
ghost use Rattle.ticket_board.specs.Seats.{IsWorkerOf};
ghost use Rattle.ticket_board.specs.Pool.{MayServe};

use super::maker::Maker;
use super::owned::Owned;
use super::patience::Patience;
use super::service::{Pool, Service};
use crate::gate::Gate;
use crate::outcome::Turn;
use crate::worker::Worker;
use std::alloc::Global;
use std::sync::Wait;
use ticket_core::{NoMemory, Solver};

/// At how many cells a worker looks again before it parks: for some hundred microseconds.
const CELLS: usize = 32_000;

/// A worker at its board, with its solver, and what is meant for it.
#[derive(Drop)]
struct Station<'p, 'a, S: Solver, G> {
    pool: &'p Pool<'p, 'a, S>,
    gate: &'p G,
    owned: Owned<'p>,
    worker: Worker<S>,
    solver: S,
    /// At which cell it looks first.
    from: usize,
    patience: Patience,
    ghost is_of_board: { IsWorkerOf pool.now.board worker },
}

impl<S: Solver + Drop, G: Gate> Station<'_, '_, S, G> {
    /// Takes a number that waits, from the cell on at which the worker begins, and answers it. The
    /// error says that the solver is out of memory.
    fn take(&mut self) -> Result<(), NoMemory>
        requires { S.key self.old.solver ≡ self.old.pool.now.board.key }
        ensures key { S.key self.new.solver ≡ self.new.pool.now.board.key }
        ensures refused { OnOk result (S.refused self.new.solver ≡ S.refused self.old.solver) }
    {
        let turn = self
            .worker
            .turn(&self.pool.board, &mut self.solver, self.gate)?;
        match turn {
            Turn::Answered(sender, number) => self.pool.bells.wake_sender(sender, number),
            Turn::Idle => {}
        }
        Ok(())
    }

    /// Parks the worker with its bell, unless something is meant for it, or the pool ends. Returns
    /// whether it was called to take what isn't meant for it.
    fn rest<R: Wait>(&self, rt: &R) -> bool {
        let bells = &self.pool.bells;
        let Some(bell) = bells.of_worker(self.owned.worker) else {
            return false;
        };
        bells.announce(bell, 0);
        if bells.has_ended() || self.owned.find(&self.pool.board, self.from).is_some() {
            bells.end_parking(bell);
        } else {
            bells.park(rt, bell);
        }
        bell.was_called()
    }

    /// Takes a number that is meant for the worker, where one waits. Else it looks again or parks,
    /// and where it is called it takes any number; it leaves the others to their workers, since
    /// each unit is best read by one worker alone. The error says that the solver is out of memory.
    fn take_turn<R: Wait>(&mut self, rt: &R) -> Result<(), NoMemory>
        requires { S.key self.old.solver ≡ self.old.pool.now.board.key }
        ensures key { S.key self.new.solver ≡ self.new.pool.now.board.key }
        ensures refused { OnOk result (S.refused self.new.solver ≡ S.refused self.old.solver) }
    {
        if let Some(cell) = self.owned.find(&self.pool.board, self.from) {
            self.patience.succeed();
            self.from = cell.saturating_add(1);
            self.worker.begin_at(cell);
            return self.take();
        }
        if self.pool.bells.have_processors() && self.patience.looks_again() {
            return Ok(());
        }
        self.patience.give_up();
        if !self.rest(rt) {
            return Ok(());
        }
        let helped = self.take();
        self.pool.bells.end_help();
        helped
    }
}

/// A worker of a pool, and its number.
#[derive(Drop)]
pub struct Serving<'p, 'a, S: Solver, M, G> {
    pub service: &'p Service<'p, 'a, S, M, G>,
    pub worker: Worker<S>,
    pub number: usize,
}

/// Makes a solver, and takes turns until the pool ends. The error says that the solver is out of
/// memory.
fn work<S: Solver + Drop, R: Wait, M: Maker<S>, G: Gate>(
    rt: &R,
    alloc: Global,
    serving: Serving<'_, '_, S, M, G>,
) -> Result<(), NoMemory>
    requires { MayServe serving.service.now.pool.board (M.key serving.service.now.maker.now) serving.worker }
{
    let service = serving.service;
    let solver = service.maker.make(alloc)?;
    let owned = Owned {
        task: service.pool.task,
        worker: serving.number,
    };
    let looks = CELLS.checked_div(owned.cells()).unwrap_or(0);
    let mut station = Station {
        pool: &service.pool,
        gate: service.gate,
        owned,
        worker: serving.worker,
        solver,
        from: 0,
        patience: Patience::new(looks),
    };
    for _ in rt.forever() {
        if service.pool.bells.has_ended() {
            break;
        }
        station.take_turn(rt)?;
    }
    Ok(())
}

/// What a worker's thread does: it makes its solver, and takes turns until the pool ends. Where it
/// is out of memory, it ends the pool.
pub fn serve<S: Solver + Drop, R: Wait, M: Maker<S>, G: Gate>(
    rt: &R,
    alloc: Global,
    serving: Serving<'_, '_, S, M, G>,
) -> Result<(), NoMemory>
    requires { MayServe serving.service.now.pool.board (M.key serving.service.now.maker.now) serving.worker }
{
    let bells = &serving.service.pool.bells;
    let served = work(rt, alloc, serving);
    if served.is_err() {
        bells.end();
    }
    served
}
