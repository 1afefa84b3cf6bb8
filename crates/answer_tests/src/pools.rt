//! Pools of two workers, each of which waits for the other.

use crate::answers::{Wanted, expect_answer};
use crate::contexts::{IN_MAIN, INLINED, image_of};
use crate::expect::expect;
use crate::texts::{Asked, PLAIN, status_of};
use a2l_lines::{Status, run_pool};
use dw_symbols::{Answer, Image};
use std::alloc::Global;
use std::process::Abort;
use std::sync::Wait;
use std::sync::atomic::{AtomicU64, Ordering};
use std::test::Fail;
use std::thread::{self, Threads};
use test_inputs::files::sample;
use ticket_board::{Gate, PoolFault};
use ticket_core::{Query, Shape};

/// How long a worker waits at the gate for the other.
const MOST_WAITS: u64 = 10_000_000;

/// A gate at which each of two workers waits until the other has entered.
#[derive(Drop)]
struct Meeting {
    /// How often number 0 entered.
    first: AtomicU64,
    /// How often any other number entered.
    second: AtomicU64,
    /// How many waited to the limit.
    alone: AtomicU64,
}

impl Meeting {
    fn new() -> Self {
        Meeting {
            first: AtomicU64::new(0),
            second: AtomicU64::new(0),
            alone: AtomicU64::new(0),
        }
    }

    /// How often number 0 entered, how often any other, and how many waited to the limit.
    fn counts(&self) -> (u64, u64, u64) {
        (
            self.first.load(Ordering::SeqCst),
            self.second.load(Ordering::SeqCst),
            self.alone.load(Ordering::SeqCst),
        )
    }
}

impl Gate for Meeting {
    fn enter(&self, _sender: usize, number: u64, _query: Query) {
        let (own, other) = match number {
            0 => (&self.first, &self.second),
            _ => (&self.second, &self.first),
        };
        own.fetch_add(1, Ordering::SeqCst);
        for _ in 0..MOST_WAITS {
            if other.load(Ordering::SeqCst) > 0 {
                return;
            }
            thread::yield_now();
        }
        self.alone.fetch_add(1, Ordering::SeqCst);
    }
}

/// The answers of a pool. No clause says what they are, so that its callers are proved soon.
fn answers_of<'a, R: Threads + Wait + Sync, G: Gate + Sync>(
    rt: &R,
    alloc: Global,
    image: &Image<'a>,
    shape: Shape,
    queries: &[Query],
    gate: &G,
) -> Result<Vec<Answer<'a>>, PoolFault> {
    run_pool(rt, alloc, image, shape, queries, gate)
}

/// Each of two numbers entered once, and the limit wasn't reached.
const BOTH_ENTERED: (u64, u64, u64) = (1, 1, 0);

/// What a pool is asked, and what it answers.
#[derive(Clone, Copy)]
struct Asking<'a> {
    shape: Shape,
    queries: &'a [Query],
    wanted: &'a [Wanted<'a>],
}

/// A pool answers each query.
fn expect_pool<R: Threads + Wait + Sync + Abort, G: Gate + Sync>(
    rt: &R,
    alloc: Global,
    image: &Image<'_>,
    asking: &Asking<'_>,
    gate: &G,
) -> Result<(), PoolFault> {
    let answers = answers_of(rt, alloc, image, asking.shape, asking.queries, gate)?;
    expect(rt, "answers", &answers.len(), &asking.wanted.len());
    for (answer, wanted) in answers.iter().zip(asking.wanted.iter()) {
        expect_answer(rt, answer, wanted);
    }
    Ok(())
}

/// Two workers answer at once.
fn two_workers_at_once<R: Threads + Wait + Sync + Abort>(
    rt: &R,
    alloc: Global,
    image: &Image<'_>,
) -> Result<(), PoolFault> {
    let gate = Meeting::new();
    let asking = Asking {
        shape: Shape {
            senders: 1,
            workers: 2,
            window: 2,
            most: 1 << 60,
        },
        queries: &[Query::address(0x401000), Query::address(0x401004)],
        wanted: &[Wanted::Frames(0, IN_MAIN), Wanted::Frames(0, INLINED)],
    };
    expect_pool(rt, alloc, image, &asking, &gate)?;
    expect(rt, "entered", &gate.counts(), &BOTH_ENTERED);
    Ok(())
}

/// Shapes past the limits, for three queries.
static PAST: [Shape; 4] = [
    Shape {
        senders: 0,
        workers: 1,
        window: 2,
        most: 1,
    },
    Shape {
        senders: 1,
        workers: 65,
        window: 2,
        most: 1,
    },
    Shape {
        senders: 1,
        workers: 1,
        window: 2,
        most: (1 << 60) + 1,
    },
    Shape {
        senders: 2,
        workers: 1,
        window: 2,
        most: 1,
    },
];

/// No pool has this shape.
fn expect_bad_shape<R: Threads + Wait + Sync + Abort>(
    rt: &R,
    alloc: Global,
    image: &Image<'_>,
    shape: Shape,
) {
    let queries = &[Query::address(1), Query::address(2), Query::address(3)];
    let fault = answers_of(rt, alloc, image, shape, queries, &Meeting::new()).err();
    assert!(rt; matches!(fault, Some(PoolFault::BadShape)));
}

/// Pools over an image: one that answers, and shapes of which there is none.
fn expect_pools<R: Threads + Wait + Sync + Abort>(
    rt: &R,
    alloc: Global,
    image: &Image<'_>,
) -> Result<(), Fail> {
    for shape in &PAST {
        expect_bad_shape(rt, alloc, image, *shape);
    }
    Ok(two_workers_at_once(rt, alloc, image)?)
}

#[test]
fn pools_over_one_image(rt: HostRuntime) -> Result<(), Fail> {
    let file = sample(rt.alloc())?;
    let image = image_of(rt.alloc(), &file)?;
    expect_pools(&rt, rt.alloc(), &image)
}

#[test]
fn two_workers_write_in_order(rt: HostRuntime) -> Result<(), Fail> {
    let file = sample(rt.alloc())?;
    let gate = Meeting::new();
    let asked = Asked {
        flags: PLAIN,
        words: &["401004", "401000"],
        text: "/w/a.c:4\n/w/a.c:3\n",
    };
    let status = status_of(&rt, rt.alloc(), &file, &asked, &gate)?;
    expect(&rt, "status", &status, &Some(Status::Clean));
    expect(&rt, "entered", &gate.counts(), &BOTH_ENTERED);
    Ok(())
}
