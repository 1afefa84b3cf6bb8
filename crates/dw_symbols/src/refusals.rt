//! How often a solver was out of memory: a count that only contracts see.

ghost use Rattle.std.specs.Prelude.{◌≡◌, ◌+◌, ℕ};
ghost use Rattle.std.specs.Borrow.{ftrue};
ghost use Rattle.std.specs.Coded.{coded_ℕ};

use std::marker::Model;

/// A count of refusals. It takes no memory, and its methods do nothing at run time.
#[derive(Drop)]
pub struct Refusals {
    ghost count: { ℕ } by { coded_ℕ },
}

impl Model for Refusals {
    ghost also_owns = { λ _. ftrue };
}

// It owns nothing.
unsafe impl Send for Refusals {}

// Nothing of it is shared.
unsafe impl Sync for Refusals {}

impl Refusals {
    /// None yet.
    pub fn new() -> Refusals
        ensures { result.count ≡ 0 }
    {
        Refusals {}
    }

    /// One more.
    pub fn then(&self) -> Refusals
        ensures { result.count ≡ self.now.count + 1 }
    {
        Refusals {}
    }
}
