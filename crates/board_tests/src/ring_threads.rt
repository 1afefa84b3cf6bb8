//! A ring of which two threads ask and two take.

ghost use Rattle.std.specs.Prelude.{◌≡◌, ◌<◌};
ghost use Rattle.std.specs.Thread.{IsSync};
ghost use Rattle.ticket_board.specs.Ring.Ends.{IsAskerOf};
ghost use Rattle.ticket_board.specs.Ring.Takers.{IsTakerOf, HasEmptyHand};

use crate::queries::addresses;
use crate::ring_ends::{Ends, open_ends};
use crate::shapes::shape;
use crate::solver::{Echo, KEY};
use dw_bytes::Steps;
use std::alloc::{AllocError, Global};
use std::marker::Brand;
use std::process::Abort;
use std::sync::Wait;
use std::sync::atomic::{AtomicBool, Ordering};
use std::sync::ledger::{Blank, Ledger};
use std::test::Fail;
use std::thread;
use std::thread::{JoinHandle, Scope, Threads};
use ticket_board::BoardFault;
use ticket_board::ring::{Asker, Ring, Taker};
use ticket_core::{NoMemory, Query, QueryKind, Solver};

/// The numbers that a sender collected, with their answers, in the order in which it did.
type Collected<S> = Vec<(u64, <S as Solver>::Answer)>;

/// A sender's end at its ring, and what it is to ask.
#[derive(Drop)]
struct Asking<'r, 'a, S: Solver> {
    ring: &'r Ring<'a, S>,
    asker: Asker<S>,
    queries: &'r [Query],
    stop: &'r AtomicBool,
    ghost asker_of: { IsAskerOf ring.now asker },
}

/// Asks the query at this index, where there is one and the window has room, and returns how many
/// were asked then.
fn ask_next<'a, S: Solver>(
    ring: &Ring<'a, S>,
    asker: &mut Asker<S>,
    queries: &[Query],
    asked: usize,
) -> usize
    requires ring { IsAskerOf ring.now asker.old }
    ensures ring { IsAskerOf ring.now asker.new }
{
    if asked >= queries.len() {
        return asked;
    }
    let Ok(_) = asker.ask(ring, queries[asked]) else {
        return asked;
    };
    asked + 1
}

/// Collects the next number, where it is answered.
fn collect_next<'a, S: Solver>(ring: &Ring<'a, S>, asker: &mut Asker<S>) -> Option<(u64, S::Answer)>
    requires ring { IsAskerOf ring.now asker.old }
    ensures ring { IsAskerOf ring.now asker.new }
{
    if !asker.ready(ring) {
        thread::yield_now();
        return None;
    }
    Some(asker.collect(ring))
}

/// Asks the queries, as far as the window allows, and collects their answers, until it has all of
/// them. The error says that an allocation was refused, or that another thread stopped.
fn ask_all<S: Solver, R: Wait>(
    rt: &R,
    alloc: Global,
    asking: Asking<'_, '_, S>,
) -> Result<Collected<S>, NoMemory> {
    let Asking {
        ring,
        mut asker,
        queries,
        stop,
    } = asking;
    let mut collected = Vec::new(alloc);
    let mut asked = 0usize;
    for _ in rt.forever() {
        if collected.len() == queries.len() {
            return Ok(collected);
        }
        if stop.load(Ordering::SeqCst) {
            return Err(AllocError);
        }
        asked = ask_next(ring, &mut asker, queries, asked);
        let Some(found) = collect_next(ring, &mut asker) else {
            continue;
        };
        collected.push(found)?;
    }
    unreachable!()
}

/// A worker's end at its ring, with its solver.
#[derive(Drop)]
struct Taking<'r, 'a, S: Solver> {
    ring: &'r Ring<'a, S>,
    taker: Taker<S>,
    solver: S,
    stop: &'r AtomicBool,
    ghost taker_of: { IsTakerOf ring.now taker },
    ghost empty: { HasEmptyHand taker },
}

/// Takes a number, solves its query and answers it; or gives it back, where the solver is out of
/// memory.
fn answer_counted<'a, S: Solver, L: Ledger>(
    ring: &Ring<'a, S>,
    taker: &mut Taker<S>,
    solver: &mut S,
    blank: Blank,
) -> Result<(), NoMemory>
    requires blank { (blank.name ≡ L.name) × (blank.parts ≡ L.parts) × (0 < L.parts) }
    requires ring { IsTakerOf ring.now taker.old }
    requires empty { HasEmptyHand taker.old }
    requires key { S.key solver.old ≡ ring.now.key }
    ensures ring { IsTakerOf ring.now taker.new }
    ensures empty { HasEmptyHand taker.new }
    ensures key { S.key solver.new ≡ ring.now.key }
{
    let mut steps = Steps::<L>::new(blank);
    let Some((_, _, query)) = taker.take(ring, &mut steps) else {
        thread::yield_now();
        return Ok(());
    };
    match solver.solve(query) {
        Ok(answer) => {
            taker.answer(ring, answer, &mut steps);
            Ok(())
        }
        Err(error) => {
            taker.give_back(ring, &mut steps);
            Err(error)
        }
    }
}

/// The same with a counter of its own.
fn answer_one<'a, S: Solver>(
    ring: &Ring<'a, S>,
    taker: &mut Taker<S>,
    solver: &mut S,
) -> Result<(), NoMemory>
    requires ring { IsTakerOf ring.now taker.old }
    requires empty { HasEmptyHand taker.old }
    requires key { S.key solver.old ≡ ring.now.key }
    ensures ring { IsTakerOf ring.now taker.new }
    ensures empty { HasEmptyHand taker.new }
    ensures key { S.key solver.new ≡ ring.now.key }
{
    answer_counted::<S, Brand>(ring, taker, solver, Blank::new(1))
}

/// Answers what waits, until the threads are to stop. Where its solver is out of memory, they are.
fn take_all<S: Solver + Drop, R: Wait>(rt: &R, taking: Taking<'_, '_, S>) -> Result<(), NoMemory>
    requires key { S.key taking.solver ≡ taking.ring.now.key }
{
    let Taking {
        ring,
        mut taker,
        mut solver,
        stop,
    } = taking;
    for _ in rt.forever() {
        if stop.load(Ordering::SeqCst) {
            return Ok(());
        }
        let Ok(()) = answer_one(ring, &mut taker, &mut solver) else {
            stop.store(true, Ordering::SeqCst);
            return Err(AllocError);
        };
    }
    unreachable!()
}

/// What the four threads are handed.
#[derive(Drop)]
struct Four<'r, 'a, S: Solver> {
    first_asking: Asking<'r, 'a, S>,
    second_asking: Asking<'r, 'a, S>,
    first_taking: Taking<'r, 'a, S>,
    second_taking: Taking<'r, 'a, S>,
    stop: &'r AtomicBool,
}

/// Starts the thread of a sender.
fn start_asking<'s, 'a: 's, E: 's, S: Solver + Drop + Send + Sync, R: Wait + Sync>(
    scope: &Scope<'s, E>,
    rt: &'s R,
    alloc: Global,
    asking: Asking<'s, 'a, S>,
) -> Result<JoinHandle<Result<Collected<S>, NoMemory>>, NoMemory> {
    let thread = scope.spawn(
        move || -> Result<Collected<S>, NoMemory>
            requires sync { IsSync R.row }
        { ask_all(rt, alloc, asking) },
    )?;
    Ok(thread)
}

/// Starts the thread of a worker.
fn start_taking<'s, 'a: 's, E: 's, S: Solver + Drop + Send + Sync, R: Wait + Sync>(
    scope: &Scope<'s, E>,
    rt: &'s R,
    taking: Taking<'s, 'a, S>,
) -> Result<JoinHandle<Result<(), NoMemory>>, NoMemory>
    requires key { S.key taking.solver ≡ taking.ring.now.key }
{
    let thread = scope.spawn(
        move || -> Result<(), NoMemory>
            requires sync { IsSync R.row }
            requires key { S.key taking.solver ≡ taking.ring.now.key }
        { take_all(rt, taking) },
    )?;
    Ok(thread)
}

/// What the thread returned, where it was started.
fn join<T: Send, R: Threads>(
    rt: &R,
    thread: Result<JoinHandle<Result<T, NoMemory>>, NoMemory>,
) -> Result<T, NoMemory> {
    thread?.join(rt)
}

/// Starts the four threads, and returns what the two senders collected.
fn run_in<'s, 'a: 's, E: 's, S: Solver + Drop + Send + Sync, R: Threads + Wait + Sync>(
    scope: &Scope<'s, E>,
    rt: &'s R,
    alloc: Global,
    four: Four<'s, 'a, S>,
) -> Result<(Collected<S>, Collected<S>), NoMemory>
    requires first { S.key four.first_taking.solver ≡ four.first_taking.ring.now.key }
    requires second { S.key four.second_taking.solver ≡ four.second_taking.ring.now.key }
{
    let Four {
        first_asking,
        second_asking,
        first_taking,
        second_taking,
        stop,
    } = four;
    let first_taking = start_taking(scope, rt, first_taking);
    let second_taking = start_taking(scope, rt, second_taking);
    let first_asking = start_asking(scope, rt, alloc, first_asking);
    let second_asking = start_asking(scope, rt, alloc, second_asking);
    if first_taking.is_err() || second_taking.is_err() {
        stop.store(true, Ordering::SeqCst);
    }
    let first = join(rt, first_asking);
    let second = join(rt, second_asking);
    stop.store(true, Ordering::SeqCst);
    join(rt, first_taking)?;
    join(rt, second_taking)?;
    Ok((first?, second?))
}

fn run<S: Solver + Drop + Send + Sync, R: Threads + Wait + Sync>(
    rt: &R,
    alloc: Global,
    four: Four<'_, '_, S>,
) -> Result<(Collected<S>, Collected<S>), NoMemory>
    requires first { S.key four.first_taking.solver ≡ four.first_taking.ring.now.key }
    requires second { S.key four.second_taking.solver ≡ four.second_taking.ring.now.key }
{
    thread::scope(
        thread::scope_env(),
        rt,
        move |scope| -> Result<(Collected<S>, Collected<S>), NoMemory>
            requires sync { IsSync R.row }
            requires first { S.key four.first_taking.solver ≡ four.first_taking.ring.now.key }
            requires second { S.key four.second_taking.solver ≡ four.second_taking.ring.now.key }
        { run_in(scope, rt, alloc, four) },
    )
}

/// Both senders of a ring ask these queries, each on a thread of its own, and two workers answer
/// them. Returns what the senders collected.
fn ask_and_take<S: Solver + Drop + Send + Sync, R: Threads + Wait + Sync>(
    rt: &R,
    alloc: Global,
    key: &[u8],
    queries: &[Query],
    first_solver: S,
    second_solver: S,
) -> Result<(Collected<S>, Collected<S>), BoardFault>
    requires first { S.key first_solver ≡ key.now }
    requires second { S.key second_solver ≡ key.now }
{
    let Ends {
        ring,
        first_asker,
        second_asker,
        first_taker,
        second_taker,
    } = open_ends::<S>(alloc, shape(2, 2, 4, 1 << 60), key)?;
    let stop = AtomicBool::new(false);
    let four = Four {
        first_asking: Asking {
            ring: &ring,
            asker: first_asker,
            queries,
            stop: &stop,
        },
        second_asking: Asking {
            ring: &ring,
            asker: second_asker,
            queries,
            stop: &stop,
        },
        first_taking: Taking {
            ring: &ring,
            taker: first_taker,
            solver: first_solver,
            stop: &stop,
        },
        second_taking: Taking {
            ring: &ring,
            taker: second_taker,
            solver: second_solver,
            stop: &stop,
        },
        stop: &stop,
    };
    let Ok(both) = run(rt, alloc, four) else {
        return Err(BoardFault::Memory);
    };
    Ok(both)
}

/// Each number was collected once, in order, with the answer to its query.
fn assert_collected(rt: &impl Abort, collected: &[(u64, QueryKind)], queries: &[Query]) {
    assert_eq!(rt; collected.len(), queries.len());
    for (i, query) in queries.iter().enumerate() {
        assert_eq!(rt; collected.get(i), Some(&(i as u64, query.kind())));
    }
}

#[test]
fn two_ask_and_two_take(rt: HostRuntime) -> Result<(), Fail> {
    let queries = addresses(rt.alloc(), 500)?;
    let (first, second) = ask_and_take(
        &rt,
        rt.alloc(),
        &KEY,
        &queries,
        Echo::new(&KEY, 0),
        Echo::new(&KEY, 0),
    )?;
    assert_collected(&rt, &first, &queries);
    assert_collected(&rt, &second, &queries);
    Ok(())
}
