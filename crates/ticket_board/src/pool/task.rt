//! What a pool has to answer, and what each of its senders promises of it.

use std::collections::VecDeque;
use std::marker::PhantomData;
use std::thread::Promise;
use ticket_core::{NoMemory, Query, Shape, Solver};

/// The queries that a pool answers, which worker each of them is meant for, and how many processors
/// there are for that.
#[derive(Clone, Copy, Debug)]
pub struct Queries<'q> {
    /// The queries.
    pub asked: &'q [Query],
    /// For each query the number of its worker. A query without one is meant for each worker, and
    /// so is one whose worker isn't there.
    pub owners: &'q [u8],
    /// How many threads can run at one time. Where more are awake, one that has nothing to do parks
    /// at once.
    pub processors: usize,
}

/// What a pool has to answer: these queries, under this key, dealt in turn to the senders of this
/// shape.
#[derive(Clone, Copy, Debug)]
pub struct Task<'q> {
    pub key: &'q [u8],
    pub queries: Queries<'q>,
    pub shape: Shape,
}

impl Task<'_> {
    /// The worker for which a number of a sender is meant; `None` where it is meant for each. No
    /// proof rests on it: any worker may answer any query.
    pub fn owner_of(&self, sender: usize, number: u64) -> Option<usize> {
        let place = (number as usize)
            .wrapping_mul(self.shape.senders)
            .wrapping_add(sender);
        let owner = usize::from(*self.queries.owners.get(place)?);
        (owner < self.shape.workers).then_some(owner)
    }
}

/// The answers that one sender received, in the order of its queries.
pub type Lane<S> = VecDeque<<S as Solver>::Answer>;

/// What one sender has answered of a task: the query at its own number, and after it every n-th
/// one, where n is the number of senders. Its thread promises that lane.
#[derive(Drop)]
pub struct Lot<'q, S> {
    pub task: Task<'q>,
    pub sender: usize,
    pub solved_by: PhantomData<S>,
}

impl<'q, S: Solver> Promise<Result<VecDeque<S::Answer>, NoMemory>> for Lot<'q, S> {
    ghost use Rattle.std.specs.Prelude.{IfOk};
    ghost use Rattle.ticket_board.specs.Pool.{IsLaneOf};

    ghost kept_by = { λ lot result. IfOk result (λ lane. IsLaneOf S.shown S.meaning lot.task lot.sender lane.items) };
}
