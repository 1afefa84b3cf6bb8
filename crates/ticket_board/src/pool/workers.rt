//! The threads of the workers.

ghost use Rattle.std.specs.Prelude.{◌≡◌, ◌≤◌, OnOk, vec_len, vec_capacity};
ghost use Rattle.std.specs.List.{AllByRecursion};
ghost use Rattle.std.specs.Thread.{IsSync};
ghost use Rattle.ticket_board.specs.Seats.{IsWorkerOf};
ghost use Rattle.ticket_board.specs.Pool.{MayServe};

use super::maker::Maker;
use super::service::Service;
use super::worker_task::{Serving, serve};
use crate::gate::Gate;
use crate::worker::Worker;
use std::alloc::{AllocError, Global};
use std::sync::Wait;
use std::thread::{JoinHandle, Scope, Threads};
use ticket_core::{NoMemory, Solver};

/// A worker's thread.
pub type WorkerThread = JoinHandle<Result<(), NoMemory>>;

/// Starts the thread of one worker. The error says that the thread was refused.
fn start_worker<
    's,
    'a: 's,
    E: 's,
    S: Solver + Drop + Send + Sync,
    R: Wait + Sync,
    M: Maker<S> + Sync,
    G: Gate + Sync,
>(
    scope: &Scope<'s, E>,
    rt: &'s R,
    alloc: Global,
    serving: Serving<'s, 'a, S, M, G>,
) -> Result<WorkerThread, NoMemory>
    requires { MayServe serving.service.now.pool.board (M.key serving.service.now.maker.now) serving.worker }
{
    let thread = scope.spawn(
        move || -> Result<(), NoMemory>
            requires sync { IsSync R.row }
            requires worker { MayServe serving.service.now.pool.board
                (M.key serving.service.now.maker.now) serving.worker }
        { serve(rt, alloc, serving) },
    )?;
    Ok(thread)
}

/// Starts the threads of the workers into `threads`, which has room for them. The error says that
/// one was refused: then the pool ends, and the later ones aren't started.
pub fn start_workers<
    's,
    'a: 's,
    E: 's,
    S: Solver + Drop + Send + Sync,
    R: Wait + Sync,
    M: Maker<S> + Sync,
    G: Gate + Sync,
>(
    scope: &Scope<'s, E>,
    rt: &'s R,
    alloc: Global,
    service: &'s Service<'s, 'a, S, M, G>,
    workers: Vec<Worker<S>>,
    threads: &mut Vec<WorkerThread>,
) -> Result<(), NoMemory>
    requires maker { M.key service.now.maker.now ≡ service.now.pool.board.key }
    requires workers { AllByRecursion (IsWorkerOf service.now.pool.board) workers.items }
    requires room { (vec_len threads.old ≡ 0) × (vec_len workers ≤ vec_capacity threads.old) }
    ensures count { OnOk result (vec_len threads.new ≡ vec_len workers) }
{
    for worker in workers {
        let serving = Serving {
            service,
            worker,
            number: threads.len(),
        };
        let Ok(thread) = start_worker(scope, rt, alloc, serving) else {
            service.pool.bells.end();
            return Err(AllocError);
        };
        threads.push_reserved(thread);
    }
    Ok(())
}

/// Joins the threads of the workers. The error says that one of them was refused memory.
pub fn join_workers<R: Threads>(rt: &R, threads: Vec<WorkerThread>) -> Result<(), NoMemory> {
    let mut refused = false;
    for thread in threads {
        match thread.join(rt) {
            Ok(()) => {}
            Err(_) => refused = true,
        }
    }
    if refused {
        return Err(AllocError);
    }
    Ok(())
}
