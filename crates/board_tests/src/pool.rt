//! Pools, each with threads of its own.

use crate::gates::{Meeting, Open, Watch};
use crate::queries::{addresses, addresses_and_spans, assert_echoed, query_of};
use crate::shapes::shape;
use crate::solver::{Echo, Echoes, KEY};
use std::alloc::Global;
use std::sync::Wait;
use std::test::Fail;
use std::thread::Threads;
use test_inputs::draws::Draws;
use ticket_board::{Gate, PoolFault, Queries, run_pool};
use ticket_core::{Query, QueryKind, Shape};

/// Queries of which each is meant for any worker.
fn for_all(asked: &[Query]) -> Queries<'_> {
    Queries {
        asked,
        owners: &[],
        processors: 2,
    }
}

/// The answers of a pool to which nothing is refused.
pub fn answers<R: Threads + Wait + Sync, G: Gate + Sync>(
    rt: &R,
    alloc: Global,
    shape: Shape,
    queries: &[Query],
    gate: &G,
) -> Result<Vec<QueryKind>, PoolFault> {
    let maker = Echoes::new(&KEY, false, 0);
    run_pool::<Echo, R, Echoes, G>(rt, alloc, &maker, shape, for_all(queries), gate)
}

#[test]
fn same_for_all_pools(rt: HostRuntime) -> Result<(), Fail> {
    let queries = addresses(rt.alloc(), 200)?;
    for workers in [1, 2, 64] {
        for senders in [1, 3, 64] {
            let shape = shape(senders, workers, 16, 1 << 60);
            let found = answers(&rt, rt.alloc(), shape, &queries, &Open)?;
            assert_echoed(&rt, &found, &queries);
        }
    }
    Ok(())
}

/// Each span is after the address at which it begins, and is answered as the span.
#[test]
fn spans_among_addresses(rt: HostRuntime) -> Result<(), Fail> {
    let queries = addresses_and_spans(&rt, rt.alloc(), 100)?;
    for workers in [1, 2, 8] {
        for senders in [1, 3, 8] {
            let gate = Watch::new(rt.alloc(), &queries, senders)?;
            let shape = shape(senders, workers, 4, 200);
            let found = answers(&rt, rt.alloc(), shape, &queries, &gate)?;
            assert_echoed(&rt, &found, &queries);
            gate.assert_each_once(&rt);
        }
    }
    Ok(())
}

/// A shape is refused where a sender would have more queries than it may ask.
#[test]
fn queries_of_each_sender(rt: HostRuntime) -> Result<(), Fail> {
    let queries = addresses(rt.alloc(), 7)?;
    for (senders, enough, too_few) in [(1, 7, 6), (3, 3, 2), (6, 2, 1)] {
        let found = answers(
            &rt,
            rt.alloc(),
            shape(senders, 1, 1, enough),
            &queries,
            &Open,
        )?;
        assert_echoed(&rt, &found, &queries);
        let refused = answers(
            &rt,
            rt.alloc(),
            shape(senders, 1, 1, too_few),
            &queries,
            &Open,
        );
        assert_eq!(rt; refused, Err(PoolFault::BadShape));
    }
    Ok(())
}

/// Query `i` is asked by sender `i % senders`, and each passes the gate once.
#[test]
fn deals_in_turn(rt: HostRuntime) -> Result<(), Fail> {
    let queries = addresses(rt.alloc(), 40)?;
    let gate = Watch::new(rt.alloc(), &queries, 3)?;
    let found = answers(&rt, rt.alloc(), shape(3, 4, 2, 14), &queries, &gate)?;
    assert_echoed(&rt, &found, &queries);
    gate.assert_each_once(&rt);
    Ok(())
}

/// Both queries are in the hands of workers at one moment.
#[test]
fn two_workers_at_once(rt: HostRuntime) -> Result<(), Fail> {
    let queries = [Query::address(0x401000), Query::address(0x401004)];
    let gate = Meeting::new(rt.alloc(), &queries)?;
    let found = answers(&rt, rt.alloc(), shape(1, 2, 2, 2), &queries, &gate)?;
    assert_echoed(&rt, &found, &queries);
    gate.assert_met(&rt);
    Ok(())
}

/// The answers are the same whichever worker they are meant for, also one that isn't there.
#[test]
fn same_for_all_owners(rt: HostRuntime) -> Result<(), Fail> {
    let queries = addresses(rt.alloc(), 60)?;
    let maker = Echoes::new(&KEY, false, 0);
    for owner in [0, 2, 200] {
        let owners = vec![in rt.alloc(); owner; 60]?;
        let queries = Queries {
            asked: &queries,
            owners: &owners,
            processors: usize::from(owner),
        };
        let found = run_pool::<Echo, HostRuntime, Echoes, Open>(
            &rt,
            rt.alloc(),
            &maker,
            shape(2, 3, 4, 100),
            queries,
            &Open,
        )?;
        assert_echoed(&rt, &found, queries.asked);
    }
    Ok(())
}

/// Both queries are meant for the first worker, which waits at the gate until the other entered
/// too: the second takes it after a while.
#[test]
fn another_workers_query(rt: HostRuntime) -> Result<(), Fail> {
    let span = query_of(&rt, QueryKind::Span(0x401000, 0x401004));
    let asked = [Query::address(0x401000), span];
    let gate = Meeting::new(rt.alloc(), &asked)?;
    let maker = Echoes::new(&KEY, false, 0);
    let queries = Queries {
        asked: &asked,
        owners: &[0, 0],
        processors: 2,
    };
    let found = run_pool::<Echo, HostRuntime, Echoes, Meeting>(
        &rt,
        rt.alloc(),
        &maker,
        shape(1, 2, 2, 2),
        queries,
        &gate,
    )?;
    assert_echoed(&rt, &found, &asked);
    gate.assert_met(&rt);
    Ok(())
}

/// Where one of many workers gets no solver, or its solver no memory, the pool has no answers.
#[test]
fn refuses(rt: HostRuntime) -> Result<(), Fail> {
    let queries = addresses(rt.alloc(), 50)?;
    for workers in [1, 2, 8] {
        let shape = shape(3, workers, 2, 100);
        for (refuses, refusals) in [(true, 0), (false, 1)] {
            let maker = Echoes::new(&KEY, refuses, refusals);
            let found = run_pool::<Echo, HostRuntime, Echoes, Open>(
                &rt,
                rt.alloc(),
                &maker,
                shape,
                for_all(&queries),
                &Open,
            );
            assert_eq!(rt; found, Err(PoolFault::Memory));
        }
    }
    Ok(())
}

/// Small shapes by chance. Each run ends by itself.
#[test]
fn many_shapes(rt: HostRuntime) -> Result<(), Fail> {
    let mut draws = Draws::new(2);
    for _ in 0..200 {
        let senders = 1 + draws.below(5);
        let workers = 1 + draws.below(5);
        let window = 1 + draws.below(4);
        let queries = addresses(rt.alloc(), draws.below(24) as u64)?;
        let shape = shape(senders, workers, window, 24);
        let found = answers(&rt, rt.alloc(), shape, &queries, &Open)?;
        assert_echoed(&rt, &found, &queries);
    }
    Ok(())
}

/// Where an allocation is refused, the same call with memory succeeds. So this test passes under
/// `rt try --test --fail-alloc N` for each N.
#[test]
fn each_allocation_refused(rt: HostRuntime) -> Result<(), Fail> {
    let queries = [Query::address(5), Query::address(6), Query::address(7)];
    let shape = shape(2, 2, 2, 2);
    let found = match answers(&rt, rt.alloc(), shape, &queries, &Open) {
        Err(PoolFault::Memory) => answers(&rt, rt.alloc(), shape, &queries, &Open)?,
        made => made?,
    };
    assert_echoed(&rt, &found, &queries);
    Ok(())
}
