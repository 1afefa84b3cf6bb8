//! The threads of the senders.

ghost use Rattle.std.specs.Prelude.{◌≡◌, ◌≤◌, map, IfOk, OnOk, vec_len, vec_capacity};
ghost use Rattle.std.specs.VecDeque.{deque_len, deque_capacity};
ghost use Rattle.std.specs.Thread.{IsSync};
ghost use Rattle.ticket_board.specs.Pool.{EachFrom, IsLaneOf, AreLanesFrom, MaySend, IsPromised};

use super::sender_task::{Sending, send};
use super::service::Pool;
use super::task::{Lane, Lot, Task};
use crate::client::Client;
use std::alloc::{AllocError, Global};
use std::collections::VecDeque;
use std::marker::PhantomData;
use std::sync::Wait;
use std::thread::{PromisedHandle, Scope, Threads};
use ticket_core::{NoMemory, Solver};

/// A sender's thread, which returns its lane.
pub type SenderThread<'q, S> = PromisedHandle<
    Result<VecDeque<<S as Solver>::Answer>, NoMemory>,
    Lot<'q, S>,
>;

/// Starts the thread of one sender. The error says that the thread was refused.
fn start_sender<'s, 'a: 's, E: 's, S: Solver + Drop + Send + Sync, R: Wait + Sync>(
    scope: &Scope<'s, E>,
    rt: &'s R,
    alloc: Global,
    sending: Sending<'s, 'a, S>,
) -> Result<SenderThread<'s, S>, NoMemory>
    requires { MaySend sending.pool.now.board sending.pool.now.task sending.sender sending.client }
    ensures { IfOk result (λ thread. IsPromised sending.entry.pool.now.task sending.entry.sender thread.promise) }
{
    let lot = Lot {
        task: sending.pool.task,
        sender: sending.sender,
        solved_by: PhantomData,
    };
    let thread = scope.spawn_with(
        lot,
        move || -> Result<VecDeque<S::Answer>, NoMemory>
            requires sync { IsSync R.row }
            requires sender { MaySend sending.pool.now.board sending.pool.now.task sending.sender sending.client }
            ensures { IfOk result (λ lane. IsLaneOf S.shown S.meaning
                sending.entry.pool.now.task sending.entry.sender lane.items) }
        { send(rt, alloc, sending) },
    )?;
    Ok(thread)
}

/// Starts the threads of the senders, in order, into `threads`, which has room for them. The error
/// says that one was refused: then the pool ends, and the later ones aren't started.
pub fn start_senders<'s, 'a: 's, E: 's, S: Solver + Drop + Send + Sync, R: Wait + Sync>(
    scope: &Scope<'s, E>,
    rt: &'s R,
    alloc: Global,
    pool: &'s Pool<'s, 'a, S>,
    clients: Vec<Client<S>>,
    threads: &mut Vec<SenderThread<'s, S>>,
) -> Result<(), NoMemory>
    requires clients { EachFrom (MaySend pool.now.board pool.now.task) 0 clients.items }
    requires room { (vec_len threads.old ≡ 0) × (vec_len clients ≤ vec_capacity threads.old) }
    ensures count { OnOk result (vec_len threads.new ≡ vec_len clients) }
    ensures within { vec_len threads.new ≤ vec_len clients }
    ensures promised { EachFrom (λ sender thread. IsPromised pool.now.task sender thread.promise) 0 threads.new.items }
{
    for client in clients {
        let sending = Sending {
            pool,
            client,
            sender: threads.len(),
        };
        let Ok(thread) = start_sender(scope, rt, alloc, sending) else {
            pool.bells.end();
            return Err(AllocError);
        };
        threads.push_reserved(thread);
    }
    Ok(())
}

/// Joins the threads of the senders, and returns their lanes, for which there is room. The error
/// says that one of them was refused memory, or ended before.
pub fn join_senders<S: Solver, R: Threads>(
    rt: &R,
    threads: Vec<SenderThread<'_, S>>,
    task: &Task<'_>,
    room: VecDeque<Lane<S>>,
) -> Result<VecDeque<Lane<S>>, NoMemory>
    requires promised { EachFrom (λ sender thread. IsPromised task.now sender thread.promise) 0 threads.items }
    requires room { (deque_len room ≡ 0) × (vec_len threads ≤ deque_capacity room) }
    ensures count { IfOk result (λ lanes. deque_len lanes ≡ vec_len threads.entry) }
    ensures lanes { IfOk result (λ lanes. AreLanesFrom S.shown S.meaning task.now 0
        (map (λ lane. lane.items) lanes.items)) }
{
    let mut lanes = room;
    let mut refused = false;
    for thread in threads {
        match thread.join(rt) {
            Ok(lane) => lanes.push_back_reserved(lane),
            Err(_) => refused = true,
        }
    }
    if refused {
        return Err(AllocError);
    }
    Ok(lanes)
}
