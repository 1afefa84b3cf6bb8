//! The queries of one sender, and where each is.

ghost use Rattle.std.specs.Prelude.{◌≡◌, ◌≤◌, vec_len, vec_capacity};

mod calls;

use crate::query::Query;

/// Where a query is that was asked.
#[derive(Debug, Drop)]
pub enum Slot<A: Drop> {
    /// It waits for a worker.
    Open,
    /// A worker holds it.
    Out(usize),
    /// It is answered, and the answer waits for the sender.
    Filled(A),
    /// The sender received the answer.
    Spent,
}

/// The queries of one sender, by number. Nothing is searched: each call looks at one slot.
#[derive(Debug, Drop)]
pub struct Lane<A: Drop> {
    asked: Vec<Query>,
    received: Vec<A>,
    closed: bool,
    slots: Vec<Slot<A>>,
    ghost in_order: { vec_len received ≤ vec_len asked },
    ghost each_has_a_slot: { vec_len slots ≡ vec_len asked },
    ghost room_for_answers: { vec_len asked ≤ vec_capacity received },
}
