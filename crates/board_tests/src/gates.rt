//! Gates for tests: what they learn of the queries that workers took.

use crate::solver::Echo;
use std::alloc::{AllocError, Global};
use std::process::Abort;
use std::sync::atomic::{AtomicBool, AtomicU64, Ordering};
use std::thread;
use ticket_board::{Board, Gate};
use ticket_core::Query;

/// How many turns a worker waits at the gate for the others.
const MOST_TURNS: u64 = 10_000_000;

/// A gate that is always open.
pub struct Open;

impl Gate for Open {
    fn enter(&self, _sender: usize, _number: u64, _query: Query) {}
}

/// A gate that looks at the first cell of a board.
#[derive(Drop)]
pub struct Peek<'b, 'a> {
    board: &'b Board<'a, Echo>,
    /// The state word that it saw there, and whether it saw one.
    word: AtomicU64,
    saw: AtomicBool,
}

impl<'b, 'a> Peek<'b, 'a> {
    /// A gate that nothing entered.
    pub fn new(board: &'b Board<'a, Echo>) -> Self {
        Peek {
            board,
            word: AtomicU64::new(0),
            saw: AtomicBool::new(false),
        }
    }

    /// The state word that it saw, if something entered.
    pub fn seen(&self) -> Option<u64> {
        self.saw
            .load(Ordering::SeqCst)
            .then_some(self.word.load(Ordering::SeqCst))
    }
}

impl Gate for Peek<'_, '_> {
    fn enter(&self, _sender: usize, _number: u64, _query: Query) {
        if let Some(word) = self.board.state_word(0) {
            self.word.store(word, Ordering::SeqCst);
            self.saw.store(true, Ordering::SeqCst);
        }
    }
}

/// A gate that counts how often each query enters. Query `i` is number `i / senders` of sender
/// `i % senders`.
#[derive(Drop)]
pub struct Watch<'a> {
    queries: &'a [Query],
    senders: usize,
    /// How often each query entered.
    entered: Vec<AtomicU64>,
    /// How often something entered with another sender, number or query than those that were asked.
    wrong: AtomicU64,
}

impl<'a> Watch<'a> {
    /// A gate that nothing entered.
    pub fn new(alloc: Global, queries: &'a [Query], senders: usize) -> Result<Self, AllocError> {
        let mut entered = Vec::new(alloc);
        for _ in queries {
            entered.push(AtomicU64::new(0))?;
        }
        Ok(Watch {
            queries,
            senders,
            entered,
            wrong: AtomicU64::new(0),
        })
    }

    /// Whether all queries entered.
    fn is_complete(&self) -> bool {
        self.entered
            .iter()
            .all(|count| count.load(Ordering::SeqCst) > 0)
    }

    /// Asserts that each query entered once, and nothing else did.
    pub fn assert_each_once(&self, rt: &impl Abort) {
        for count in self.entered.iter() {
            assert_eq!(rt; count.load(Ordering::SeqCst), 1);
        }
        assert_eq!(rt; self.wrong.load(Ordering::SeqCst), 0);
    }
}

impl Gate for Watch<'_> {
    fn enter(&self, sender: usize, number: u64, query: Query) {
        let i = (number as usize)
            .wrapping_mul(self.senders)
            .wrapping_add(sender);
        match (self.queries.get(i), self.entered.get(i)) {
            (Some(asked), Some(count)) if *asked == query => {
                count.fetch_add(1, Ordering::SeqCst);
            }
            _ => {
                self.wrong.fetch_add(1, Ordering::SeqCst);
            }
        }
    }
}

/// A gate that holds each query until all have entered.
#[derive(Drop)]
pub struct Meeting<'a> {
    watch: Watch<'a>,
    /// How many queries it let through since they had waited for as many turns as it allows.
    let_go: AtomicU64,
}

impl<'a> Meeting<'a> {
    /// A gate that nothing entered, for the queries of one sender.
    pub fn new(alloc: Global, queries: &'a [Query]) -> Result<Self, AllocError> {
        Ok(Meeting {
            watch: Watch::new(alloc, queries, 1)?,
            let_go: AtomicU64::new(0),
        })
    }

    /// Asserts that each query entered once, and that all were held until all had entered.
    pub fn assert_met(&self, rt: &impl Abort) {
        self.watch.assert_each_once(rt);
        assert_eq!(rt; self.let_go.load(Ordering::SeqCst), 0);
    }
}

impl Gate for Meeting<'_> {
    fn enter(&self, sender: usize, number: u64, query: Query) {
        self.watch.enter(sender, number, query);
        for _ in 0..MOST_TURNS {
            if self.watch.is_complete() {
                return;
            }
            thread::yield_now();
        }
        self.let_go.fetch_add(1, Ordering::SeqCst);
    }
}
