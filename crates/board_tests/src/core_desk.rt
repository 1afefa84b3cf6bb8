//! A core with a solver, and beside it what its workers hold.

ghost use Rattle.std.specs.Prelude.{◌≡◌, ◌<◌, Some, IfOk};
ghost use Rattle.ticket_core.specs.State.{hand_at};
ghost use Rattle.ticket_core.specs.Events.{meaning_of};

use crate::solver::{Echo, Parity};
use std::alloc::Global;
use ticket_core::{Core, CoreFault, NewFault, NoMemory, Query, Shape, Solver};

/// A core whose answers are the solver's. It knows what each hand holds, so a worker can finish
/// just that.
#[derive(Drop)]
pub struct CoreDesk<S: Solver + Drop> {
    core: Core<'static, S>,
    solver: S,
    hands: Vec<Option<(usize, u64)>>,
    pub shape: Shape,
    ghost same_key: { core.key ≡ S.key solver },
    ghost shaped: { core.shape ≡ shape },
    ghost same_hands: { core.hands ≡ hands.items },
}

/// What a solver of the core's key says to the query that a worker holds.
fn answer<S: Solver>(
    core: &Core<'_, S>,
    solver: &mut S,
    worker: usize,
    sender: usize,
    number: u64,
) -> Result<S::Answer, NoMemory>
    requires key { S.key solver.old ≡ core.now.key }
    requires held { hand_at core.now worker ≡ Some (sender, number) }
    ensures right { IfOk result (λ answer. S.shown answer ≡ meaning_of S.meaning core.now (sender, number)) }
    ensures key { S.key solver.new ≡ S.key solver.old }
{
    core.law_of_state();
    let query = core.asked(sender)[number as usize];
    solver.solve(query)
}

impl CoreDesk<Echo> {
    pub fn new(alloc: Global, shape: Shape, key: &'static [u8]) -> Result<Self, NewFault>
        ensures { IfOk result (λ desk. desk.shape ≡ shape) }
    {
        CoreDesk::of(alloc, shape, key, Echo::new(key, 0))
    }
}

impl CoreDesk<Parity> {
    /// A core whose answers are remainders by 2.
    pub fn of_parities(alloc: Global, shape: Shape, key: &'static [u8]) -> Result<Self, NewFault>
        ensures { IfOk result (λ desk. desk.shape ≡ shape) }
    {
        CoreDesk::of(alloc, shape, key, Parity::new(key))
    }
}

impl<S: Solver + Drop> CoreDesk<S> {
    fn of(alloc: Global, shape: Shape, key: &'static [u8], solver: S) -> Result<Self, NewFault>
        requires { key.now ≡ S.key solver }
        ensures { IfOk result (λ desk. desk.shape ≡ shape) }
    {
        let hands = vec![in alloc; None; shape.workers]?;
        let core = Core::new(alloc, shape, key)?;
        Ok(CoreDesk {
            core,
            solver,
            hands,
            shape,
        })
    }

    pub fn ask(&mut self, sender: usize, query: Query) -> Result<u64, CoreFault>
        requires { sender < self.old.shape.senders }
        ensures { self.new.shape ≡ self.old.shape }
    {
        self.core.ask(sender, query)
    }

    pub fn take(&mut self, worker: usize, sender: usize, number: u64) -> Result<(), CoreFault>
        requires worker { worker < self.old.shape.workers }
        requires sender { sender < self.old.shape.senders }
        ensures { self.new.shape ≡ self.old.shape }
    {
        self.core.take(worker, sender, number)?;
        self.hands[worker] = Some((sender, number));
        Ok(())
    }

    /// The worker's number is answered by the solver. An empty hand has any answer refused.
    pub fn finish(&mut self, worker: usize) -> Result<(usize, u64), CoreFault>
        requires { worker < self.old.shape.workers }
        ensures { self.new.shape ≡ self.old.shape }
    {
        self.core.law_of_state();
        let Some((sender, number)) = self.hands[worker] else {
            let unwanted = self.solver.solve(Query::address(0))?;
            return self.core.finish(worker, unwanted);
        };
        let answer = answer(&self.core, &mut self.solver, worker, sender, number)?;
        let ticket = self.core.finish(worker, answer)?;
        self.hands[worker] = None;
        Ok(ticket)
    }

    pub fn give_back(&mut self, worker: usize) -> Result<(usize, u64), CoreFault>
        requires { worker < self.old.shape.workers }
        ensures { self.new.shape ≡ self.old.shape }
    {
        let ticket = self.core.give_back(worker)?;
        self.hands[worker] = None;
        Ok(ticket)
    }

    pub fn collect(&mut self, sender: usize) -> Result<u64, CoreFault>
        requires { sender < self.old.shape.senders }
        ensures { self.new.shape ≡ self.old.shape }
    {
        self.core.collect(sender)
    }

    pub fn close(&mut self, sender: usize)
        requires { sender < self.old.shape.senders }
        ensures { self.new.shape ≡ self.old.shape }
    {
        self.core.close(sender);
    }

    pub fn asked(&self, sender: usize) -> &[Query]
        requires { sender < self.now.shape.senders }
    {
        self.core.asked(sender)
    }

    pub fn received(&self, sender: usize) -> &[S::Answer]
        requires { sender < self.now.shape.senders }
    {
        self.core.received(sender)
    }
}
