//! What makes the solvers of a pool.

ghost use Rattle.std.specs.Prelude.{◌≡◌, ℕ, List, IfOk};

use std::alloc::Global;
use ticket_core::{NoMemory, Solver};

/// Makes solvers, all by one key. Each worker makes its own, on its thread.
pub trait Maker<S: Solver> {
    /// The key of the solvers.
    ghost key: { Self → List ℕ };

    /// The key: for a file's meaning, its bytes.
    fn key(&self) -> &[u8]
        ensures { result.now ≡ key self.now };

    /// Makes a solver. The error says that an allocation was refused.
    fn make(&self, alloc: Global) -> Result<S, NoMemory>
        ensures { IfOk result (λ solver. S.key solver ≡ key self.now) };
}
