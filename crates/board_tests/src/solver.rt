//! A solver for tests, and what makes such solvers for a pool.

ghost use Rattle.std.specs.Prelude.{◌≡◌};

use std::alloc::{AllocError, Global};
use std::sync::atomic::{AtomicBool, Ordering};
use ticket_board::Maker;
use ticket_core::{NoMemory, Query, QueryKind, Solver};

/// The key of the tests.
pub const KEY: [u8; 3] = [7, 8, 9];

/// Answers each query with what it asks about, whatever the key. Its first calls are refused
/// memory.
#[derive(Drop)]
pub struct Echo {
    key: &'static [u8],
    /// How many calls are refused memory.
    refusals: u64,
    /// How many were refused so far.
    refused: u64,
}

impl Echo {
    /// A solver that is refused memory so many times.
    pub fn new(key: &'static [u8], refusals: u64) -> Self
        ensures { result.key.now ≡ key.now }
    {
        Echo {
            key,
            refusals,
            refused: 0,
        }
    }
}

impl Solver for Echo {
    ghost use Rattle.ticket_core.specs.Codes.{query_code};

    type Answer = QueryKind;

    ghost shown = { λ answer. query_code.code answer };

    ghost meaning = { λ key query. query_code.code query };

    ghost key = { λ solver. solver.key.now };

    ghost refused = { λ solver. solver.refused };

    fn key(&self) -> &[u8] {
        self.key
    }

    fn solve(&mut self, query: Query) -> Result<QueryKind, NoMemory> {
        if self.refused < self.refusals {
            self.refused += 1;
            return Err(AllocError);
        }
        Ok(query.kind())
    }
}

/// Answers each query with what is left of its first word by 2, whatever the key.
#[derive(Drop)]
pub struct Parity {
    key: &'static [u8],
}

impl Parity {
    pub fn new(key: &'static [u8]) -> Self
        ensures { result.key.now ≡ key.now }
    {
        Parity { key }
    }
}

impl Solver for Parity {
    ghost use Rattle.std.specs.Prelude.{◌%◌};
    ghost use Rattle.std.specs.Coded.{coded_ℕ};
    ghost use Rattle.ticket_core.specs.Query.{first_word};

    type Answer = u64;

    ghost shown = { λ answer. coded_ℕ.code answer };

    ghost meaning = { λ key query. coded_ℕ.code (first_word query % 2) };

    ghost key = { λ solver. solver.key.now };

    ghost refused = { λ solver. 0 };

    fn key(&self) -> &[u8] {
        self.key
    }

    fn solve(&mut self, query: Query) -> Result<u64, NoMemory> {
        Ok(query.first() % 2)
    }
}

/// Makes solvers of one key.
#[derive(Drop)]
pub struct Echoes {
    key: &'static [u8],
    /// Whether the next solver is refused memory when it is made.
    refuses: AtomicBool,
    /// How many calls of each solver are refused memory.
    refusals: u64,
}

impl Echoes {
    /// The first solver is refused memory when it is made or not, and each solver in so many calls.
    pub fn new(key: &'static [u8], refuses: bool, refusals: u64) -> Self {
        Echoes {
            key,
            refuses: AtomicBool::new(refuses),
            refusals,
        }
    }
}

impl Maker<Echo> for Echoes {
    ghost key = { λ maker. maker.key.now };

    fn key(&self) -> &[u8] {
        self.key
    }

    fn make(&self, _alloc: Global) -> Result<Echo, NoMemory> {
        if self.refuses.swap(false, Ordering::SeqCst) {
            return Err(AllocError);
        }
        Ok(Echo::new(self.key, self.refusals))
    }
}
