//! Where the words of a cell are.

ghost use Rattle.std.specs.Prelude.{◌≡◌, ◌<◌};
ghost use Rattle.ticket_core.specs.Shape.{Fits};
ghost use Rattle.ticket_board.specs.Ring.Layout as layout;

use ticket_core::Shape;

/// How many words a cell has: its state, then the two words of the query that was asked.
pub const CELL_WORDS: usize = 3;

/// The index of the state among the words of a cell.
pub const STATE: usize = 0;

/// The index of the query's first word among the words of a cell.
pub const FIRST: usize = 1;

/// The index of the query's second word among the words of a cell.
pub const SECOND: usize = 2;

/// The cell of a sender's number.
pub fn cell_at(shape: &Shape, sender: usize, number: u64) -> usize
    requires fits { Fits shape.now }
    requires sender { sender < shape.now.senders }
    ensures cell { result ≡ layout.cell_of shape.now sender number }
    ensures within { result < layout.cells_in shape.now }
    ensures few { result < 65536 }
{
    let turn = number % shape.window as u64;
    sender * shape.window + turn as usize
}
