//! What all seats share.

ghost use Rattle.std.specs.Prelude.{◌≡◌, ◌/◌, ◌<◌, ◌↔◌, IsSome, IfSome};
ghost use Rattle.ticket_board.specs.Ring.Layout.{cells_in};

use crate::ring::layout::{CELL_WORDS, STATE};
use crate::ring::rule::{Knowledge, Rule, Terms};
use atomic_table::Table;
use std::alloc::Global;
use std::marker::Model;
use ticket_core::{Shape, Solver};

/// The words and slots of the board, as askers and takers share them. Contracts see its shape, its
/// key, and which table it is.
#[derive(Drop)]
pub struct Ring<'a, S: Solver> {
    pub(crate) table: Table<Option<S::Answer>, Knowledge, Terms<'a>, Rule<S>, Global>,
    pub(crate) shape: Shape,
}

impl<'a, S: Solver> Model for Ring<'a, S> {
    ghost use Rattle.ticket_board.specs.Ring.Ends.{RingState, IsRing};

    ghost Value = { RingState };

    ghost view = { λ ring. record {
      shape = ring.table.shared.key.shape;
      key = ring.table.shared.key.key.now;
      table
          = ring.table.shared.table_id;
    } };

    ghost invariant = { λ ring. IsRing ring.shape ring.table.shared.key.shape ring.table.shared.table_id };
}

impl<'a, S: Solver> Ring<'a, S> {
    /// The state word of a cell, as some thread left it: eight times the number for which the cell
    /// is, and 0 where that number isn't asked yet, 1 where it waits, 2 where a worker holds it, 3
    /// where it is answered, or 4 where its answer is on its way to the sender. `None` where there
    /// is no such cell. It looks without a seat, so it is no step, and which word it finds no
    /// contract says.
    pub fn state_word(&self, cell: usize) -> Option<u64>
        ensures { IsSome result ↔ (cell < cells_in self.now.shape) }
    {
        if cell >= self.shape.senders * self.shape.window {
            return None;
        }
        Some(self.table.shared.peek(cell * CELL_WORDS + STATE))
    }

    /// The sender and the number that wait in a cell, as far as can be seen: another thread may
    /// take the number at any moment. `None` where the cell's number doesn't wait, or there is no
    /// such cell.
    pub fn waits_at(&self, cell: usize) -> Option<(usize, u64)>
        ensures { IfSome result (λ found. (cell < cells_in self.now.shape)
            × (found.0 ≡ cell / self.now.shape.window)) }
    {
        let word = self.state_word(cell)?;
        if word % 8 != 1 {
            return None;
        }
        Some((cell / self.shape.window, word / 8))
    }
}
