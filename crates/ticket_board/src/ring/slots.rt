//! How an answer goes into the slot that a seat has taken, and out of it.

ghost use Rattle.std.specs.Prelude.{◌≡◌, Some, None};
ghost use Rattle.ticket_board.specs.Ring.Rule.{CarriesFirst, carries};

use crate::ring::rule::{Place, Shelf};
use ticket_core::Solver;

/// Puts an answer into the slot, which is empty.
pub fn put_in<'a, S: Solver>(
    shelf: &Shelf<'a, S>,
    seat: &mut Place<S>,
    cell: usize,
    answer: S::Answer,
)
    requires table { seat.old.table_id ≡ shelf.now.table_id }
    requires slot { CarriesFirst cell None seat.old.me }
    ensures same { (seat.new.table_id ≡ seat.old.table_id) × (seat.new.id ≡ seat.old.id) }
    ensures slot { seat.new.me ≡ carries cell (Some answer) seat.old.me }
{
    let _nothing = shelf.exchange(seat, cell, Some(answer));
}

/// Takes the answer out of the slot, and leaves it empty.
pub fn take_out<'a, S: Solver>(shelf: &Shelf<'a, S>, seat: &mut Place<S>, cell: usize) -> S::Answer
    requires table { seat.old.table_id ≡ shelf.now.table_id }
    requires slot { (answer : S.Answer) × CarriesFirst cell (Some answer) seat.old.me }
    ensures same { (seat.new.table_id ≡ seat.old.table_id) × (seat.new.id ≡ seat.old.id) }
    ensures answer { CarriesFirst cell (Some result) seat.old.me }
    ensures slot { seat.new.me ≡ carries cell None seat.old.me }
{
    let Some(answer) = shelf.exchange(seat, cell, None) else {
        unreachable!()
    };
    answer
}
