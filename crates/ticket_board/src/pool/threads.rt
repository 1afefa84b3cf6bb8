//! All threads of a pool, from their start to their end.

ghost use Rattle.std.specs.Prelude.{◌≡◌, IfOk, map};
ghost use Rattle.std.specs.VecDeque.{deque_len};
ghost use Rattle.std.specs.Thread.{IsSync};
ghost use Rattle.ticket_board.specs.Pool.{AreLanesFrom, IsPool};

use super::maker::Maker;
use super::senders::{join_senders, start_senders};
use super::service::Service;
use super::task::Lane;
use super::workers::{join_workers, start_workers};
use crate::client::Client;
use crate::gate::Gate;
use crate::worker::Worker;
use std::alloc::Global;
use std::collections::VecDeque;
use std::sync::Wait;
use std::thread;
use std::thread::{Scope, Threads};
use ticket_core::{NoMemory, Solver};

/// Starts the workers and then the senders, joins the senders, ends the pool and joins the
/// workers. Where one thread was refused, or refused memory, all others are joined too.
fn run_in<
    's,
    'a: 's,
    E: 's,
    S: Solver + Drop + Send + Sync,
    R: Threads + Wait + Sync,
    M: Maker<S> + Sync,
    G: Gate + Sync,
>(
    scope: &Scope<'s, E>,
    rt: &'s R,
    alloc: Global,
    service: &'s Service<'s, 'a, S, M, G>,
    clients: Vec<Client<S>>,
    workers: Vec<Worker<S>>,
) -> Result<VecDeque<Lane<S>>, NoMemory>
    requires { IsPool service.now.pool.board service.now.pool.task
        (M.key service.now.maker.now) clients.items workers.items }
    ensures count { IfOk result (λ lanes. deque_len lanes ≡ service.now.pool.task.shape.senders) }
    ensures lanes { IfOk result (λ lanes. AreLanesFrom S.shown S.meaning service.now.pool.task 0
        (map (λ lane. lane.items) lanes.items)) }
{
    let pool = &service.pool;
    let mut senders = Vec::with_capacity(alloc, clients.len())?;
    let mut serving = Vec::with_capacity(alloc, workers.len())?;
    let lanes = VecDeque::with_capacity(alloc, clients.len())?;
    let workers_started = start_workers(scope, rt, alloc, service, workers, &mut serving);
    let senders_started = start_senders(scope, rt, alloc, pool, clients, &mut senders);
    let lanes = join_senders::<S, R>(rt, senders, &pool.task, lanes);
    pool.bells.end();
    let workers_ended = join_workers(rt, serving);
    workers_started?;
    senders_started?;
    workers_ended?;
    lanes
}

/// Runs a pool, each client and each worker on a thread of its own, and returns the lanes of the
/// senders. The error says that an allocation or a thread was refused; no thread is left.
pub fn run<
    S: Solver + Drop + Send + Sync,
    R: Threads + Wait + Sync,
    M: Maker<S> + Sync,
    G: Gate + Sync,
>(
    rt: &R,
    alloc: Global,
    service: &Service<'_, '_, S, M, G>,
    clients: Vec<Client<S>>,
    workers: Vec<Worker<S>>,
) -> Result<VecDeque<Lane<S>>, NoMemory>
    requires pool { IsPool service.now.pool.board service.now.pool.task
        (M.key service.now.maker.now) clients.items workers.items }
    ensures count { IfOk result (λ lanes. deque_len lanes ≡ service.now.pool.task.shape.senders) }
    ensures lanes { IfOk result (λ lanes. AreLanesFrom S.shown S.meaning service.now.pool.task 0
        (map (λ lane. lane.items) lanes.items)) }
{
    thread::scope(
        thread::scope_env(),
        rt,
        move |scope| -> Result<VecDeque<Lane<S>>, NoMemory>
            requires sync { IsSync R.row }
            requires pool { IsPool service.now.pool.board service.now.pool.task
                (M.key service.now.maker.now) clients.items workers.items }
            ensures count { IfOk result (λ lanes. deque_len lanes ≡ service.entry.now.pool.task.shape.senders) }
            ensures lanes { IfOk result (λ lanes. AreLanesFrom S.shown S.meaning service.entry.now.pool.task 0
                (map (λ lane. lane.items) lanes.items)) }
        { run_in(scope, rt, alloc, service, clients, workers) },
    )
}
