//! The pool: queries are asked by many senders and answered by many workers, each on a thread of
//! its own, and the answers are in the order of the queries.

ghost use Rattle.std.specs.Prelude.{◌≡◌, IfOk, IfErr, OnOk, length};
ghost use Rattle.ticket_board.specs.Pool.{AreAnswers, PoolFits, RefusesPool};

mod answer_order;
mod bell;
mod bells;
mod fault;
mod limits;
mod maker;
mod owned;
mod patience;
mod sender_task;
mod senders;
mod service;
mod task;
mod threads;
mod worker_task;
mod workers;

use crate::gate::Gate;
use crate::new_board::open;
use answer_order::gather;
use bells::Bells;
pub use fault::PoolFault;
pub use limits::pool_fits;
pub use maker::Maker;
use service::{Pool, Service};
use std::alloc::Global;
use std::sync::Wait;
use std::thread::Threads;
pub use task::Queries;
use task::Task;
use threads::run;
use ticket_core::{Shape, Solver};

/// Answers all queries: the answer at `i` is that of `queries.asked[i]`, by the maker's key. There
/// is a thread for each sender and each worker of the shape, and query `i` is asked by sender
/// `i % senders`. Each worker's solver is made on its thread. When the call returns, all threads
/// have ended.
///
/// A worker answers the queries that are meant for it, and others only where a sender has waited
/// for some hundred milliseconds. The answers are the same for all owners. A thread that finds
/// nothing to do parks, and is woken by the one that makes work for it.
///
/// The error is `BadShape` exactly where the shape is past its limits, or some sender would have
/// more than `most` queries; else `Memory` where an allocation or a thread was refused, which ends
/// the pool.
pub fn run_pool<
    S: Solver + Drop + Send + Sync,
    R: Threads + Wait + Sync,
    M: Maker<S> + Sync,
    G: Gate + Sync,
>(
    rt: &R,
    alloc: Global,
    maker: &M,
    shape: Shape,
    queries: Queries<'_>,
    gate: &G,
) -> Result<Vec<S::Answer>, PoolFault>
    ensures answers { IfOk result (λ answers. AreAnswers S.shown S.meaning
        (M.key maker.now) queries.entry.asked.now answers.items) }
    ensures fits { OnOk result (PoolFits shape (length queries.entry.asked.now)) }
    ensures refusal { IfErr result (λ fault. RefusesPool fault shape (length queries.entry.asked.now)) }
{
    if !pool_fits(&shape, queries.asked.len()) {
        return Err(PoolFault::BadShape);
    }
    let key = maker.key();
    let (board, clients, workers) = open::<S>(alloc, shape, key)?;
    let bells = Bells::new(alloc, &shape, queries.processors)?;
    let task = Task {
        key,
        queries,
        shape,
    };
    let pool = Pool { board, task, bells };
    let service = Service { pool, maker, gate };
    let lanes = run(rt, alloc, &service, clients, workers)?;
    let answers = gather::<S>(alloc, &task, lanes)?;
    Ok(answers)
}
