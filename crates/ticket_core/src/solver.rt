//! Who answers queries.

ghost use Rattle.std.specs.Prelude.{◌≡◌, ◌+◌, ℕ, List, IfOk, is_ok, if◌then◌else◌};
ghost use Rattle.ticket_core.specs.declared.query.Query.{Query};
ghost use Rattle.ticket_core.specs.State.{Shown};

use crate::query::Query;
use std::alloc::AllocError;

/// Out of memory.
pub type NoMemory = AllocError;

/// Answers queries: a query has one meaning under a key, whoever answers it and whenever.
pub trait Solver {
    /// What a query is answered with.
    type Answer: Drop + Send;

    /// What an answer shows: its numbers, and its texts by their bytes. Answers are compared by
    /// this alone.
    ghost shown: { Self.Answer → Shown };

    /// What a query means under a key. It depends on these two alone.
    ghost meaning: { List ℕ → Query → Shown };

    /// The key that a solver answers by.
    ghost key: { Self → List ℕ };

    /// How often it was out of memory.
    ghost refused: { Self → ℕ };

    /// The key: for a file's meaning, its bytes.
    fn key(&self) -> &[u8]
        ensures { result.now ≡ key self.now };

    /// Answers the query. The error says that an allocation was refused.
    fn solve(&mut self, query: Query) -> Result<Self::Answer, NoMemory>
        ensures right { IfOk result (λ answer. shown answer ≡ meaning (key self.old) query) }
        ensures key_stays { key self.new ≡ key self.old }
        ensures counted { refused self.new ≡ (if is_ok result then refused self.old else refused self.old + 1) };
}
