//! The board that clients and workers share.

ghost use Rattle.std.specs.Prelude.{◌≡◌, ◌/◌, ◌<◌, ◌↔◌, IsSome, IfSome};
ghost use Rattle.ticket_board.specs.Ring.Layout.{cells_in};

use crate::ring::Ring;
use std::marker::Model;
use ticket_core::Solver;

/// What clients and workers share: the ring. Contracts see its shape, its key, and which table it
/// is.
#[derive(Drop)]
pub struct Board<'a, S: Solver> {
    pub(crate) ring: Ring<'a, S>,
}

impl<'a, S: Solver> Model for Board<'a, S> {
    ghost use Rattle.ticket_board.specs.Ring.Ends.{RingState};

    ghost Value = { RingState };

    ghost view = { λ board. board.ring };
}

impl<'a, S: Solver> Board<'a, S> {
    /// The sender and the number that wait in a cell, as far as can be seen: another thread may
    /// take the number at any moment. `None` where the cell's number doesn't wait, or there is no
    /// such cell. It looks without a seat, so it is no step, and that the number waits no contract
    /// says.
    pub fn waits_at(&self, cell: usize) -> Option<(usize, u64)>
        ensures { IfSome result (λ found. (cell < cells_in self.now.shape)
            × (found.0 ≡ cell / self.now.shape.window)) }
    {
        self.ring.waits_at(cell)
    }

    /// The state word of a cell, as `Ring::state_word` has it.
    pub fn state_word(&self, cell: usize) -> Option<u64>
        ensures { IsSome result ↔ (cell < cells_in self.now.shape) }
    {
        self.ring.state_word(cell)
    }
}
