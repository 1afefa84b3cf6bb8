//! The table of the ring, and its rule: some moves made its words, slots and seats what they are.

use atomic_table::{Seat, Shared, TableRule};
use std::marker::{Model, PhantomData};
use ticket_core::{Shape, Solver};

/// What a seat knows. No value of it is made.
pub struct Knowledge {}

impl Model for Knowledge {
    ghost use Rattle.ticket_board.specs.Ring.Views.{Stamped, stamped, nobody};
    ghost use Rattle.ticket_board.specs.Ring.Codes.{stamped_code};

    ghost Value = { Stamped };

    ghost coded = { stamped_code };

    ghost view = { λ _. stamped nobody 0 };
}

/// What the table is given once: the ring's shape, and the key of its answers.
#[derive(Debug, Drop)]
pub struct Terms<'a> {
    /// The shape of the core that the ring shows.
    pub shape: Shape,
    /// The key by which queries are answered.
    pub key: &'a [u8],
}

/// Some moves made the table what it is, each by the seat that makes it, where it may be made.
pub struct Rule<S> {
    solved_by: PhantomData<S>,
}

impl<'a, S: Solver> TableRule<Option<S::Answer>, Knowledge, Terms<'a>> for Rule<S> {
    ghost use Rattle.ticket_board.specs.Ring.Views.{opener, stamped};
    ghost use Rattle.ticket_board.specs.Ring.Rule.{Holds};

    ghost holds = { λ terms. Holds S.shown S.meaning terms.shape terms.key.now };

    ghost first = { λ terms. stamped (opener terms.shape terms.key.now 0) 0 };
}

/// The words and slots, as all seats share them.
pub type Shelf<'a, S> = Shared<Option<<S as Solver>::Answer>, Knowledge, Terms<'a>, Rule<S>>;

/// A seat at them.
pub type Place<S> = Seat<Option<<S as Solver>::Answer>, Knowledge>;
