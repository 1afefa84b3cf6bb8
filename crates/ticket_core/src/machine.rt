//! The core: senders' lanes and workers' hands.

ghost use Rattle.std.specs.Prelude.{◌≡◌, ◌<◌, Some, None, IfSome, IfOk, IfErr, OnOk, OnErr, length, map, replicate};
ghost use Rattle.ticket_core.specs.NewFaults.{RefusesShape};
ghost use Rattle.ticket_core.specs.Shape.{Fits};
ghost use Rattle.ticket_core.specs.State.{Shown, fresh, opening, sender_at, hand_at};
ghost use Rattle.ticket_core.specs.Events.{meaning_of, Step, Ask, Take, Finish, GiveBack, Collect, Close};
ghost use Rattle.ticket_core.specs.Refusals.{refusal, Refuses, RefusesOrMemory};
ghost use Rattle.ticket_core.specs.Runs.{IsRight};
ghost use Rattle.ticket_core.specs.Sound.{IsSound};
ghost use Rattle.ticket_core.specs.Shown.{sender_shown};

use crate::fault::{CoreFault, NewFault};
use crate::lane::{Lane, Slot};
use crate::query::Query;
use crate::shape::Shape;
use crate::solver::Solver;
use std::alloc::{AllocError, Global};
use std::marker::{Model, PhantomData};

/// Queries in order, each answered once. Contracts see the state that the definitions speak of:
/// who asked what, who received what, and where each number is.
///
/// The work of a call doesn't grow with the number of queries that were asked: each call looks at
/// one slot of one sender and at one hand. `ask` doubles the allocation of a list that is full.
#[derive(Drop)]
#[derive_where(Debug; S::Answer)]
pub struct Core<'a, S: Solver> {
    shape: Shape,
    key: &'a [u8],
    lanes: Vec<Lane<S::Answer>>,
    hands: Vec<Option<(usize, u64)>>,
    solved_by: PhantomData<S>,
}

impl<'a, S: Solver> Model for Core<'a, S> {
    ghost use Rattle.ticket_core.specs.State.{State};
    ghost use Rattle.ticket_core.specs.Codes.{state_code};

    ghost Value = { State };

    ghost coded = { state_code };

    ghost use Rattle.ticket_core.specs.Shown.{state_shown};
    ghost use Rattle.ticket_core.specs.Sound.{IsSound};

    ghost view = { λ core. state_shown S.shown core.shape core.key.now core.lanes.items core.hands.items };

    ghost invariant = { λ core. IsSound S.meaning
        (state_shown S.shown core.shape core.key.now core.lanes.items core.hands.items) };
}

/// Lanes in which nothing was asked.
fn new_lanes<A: Drop>(alloc: Global, count: usize) -> Result<Vec<Lane<A>>, AllocError>
    ensures { IfOk result (λ lanes. (shown : A → Shown)
        → map (sender_shown shown) lanes.items ≡ replicate count fresh) }
{
    let mut lanes = Vec::with_capacity(alloc, count)?;
    for _ in 0..count {
        lanes.push_reserved(Lane::new(alloc));
    }
    Ok(lanes)
}

/// Hands that hold nothing.
fn new_hands(alloc: Global, count: usize) -> Result<Vec<Option<(usize, u64)>>, AllocError>
    ensures { IfOk result (λ hands. hands.items ≡ replicate count None) }
{
    let mut hands = Vec::with_capacity(alloc, count)?;
    for _ in 0..count {
        hands.push_reserved(None);
    }
    Ok(hands)
}

impl<'a, S: Solver> Core<'a, S> {
    /// A core in which nothing was asked.
    ///
    /// The error is `BadShape` for a shape past its limits, else `Memory` where an allocation was
    /// refused.
    pub fn new(alloc: Global, shape: Shape, key: &'a [u8]) -> Result<Self, NewFault>
        ensures opening { IfOk result (λ core. core ≡ opening shape key.now) }
        ensures fits { OnOk result (Fits shape) }
        ensures refusal { IfErr result (λ fault. RefusesShape fault shape) }
    {
        if !shape.fits() {
            return Err(NewFault::BadShape);
        }
        let lanes = new_lanes(alloc, shape.senders)?;
        let hands = new_hands(alloc, shape.workers)?;
        Ok(Core {
            shape,
            key,
            lanes,
            hands,
            solved_by: PhantomData,
        })
    }

    /// Whatever was called before, this state is sound: each sender is right and within its limits,
    /// and hands and places agree. It does nothing.
    pub fn law_of_state(&self)
        ensures sound { IsSound S.meaning self.now }
    {
        let _ = &self.lanes;
    }

    /// The queries that a sender asked, by number.
    pub fn asked(&self, sender: usize) -> &[Query]
        requires sender { sender < self.now.shape.senders }
        ensures { result.now ≡ (sender_at self.now sender).asked }
    {
        self.lanes[sender].asked()
    }

    /// The answers that a sender received, by number. They are right: each shows the meaning of
    /// the query that was asked at its number.
    pub fn received(&self, sender: usize) -> &[S::Answer]
        requires sender { sender < self.now.shape.senders }
        ensures received { map S.shown result.now ≡ (sender_at self.now sender).received }
        ensures right { IsRight S.meaning self.now.key (sender_at self.now sender) }
    {
        self.lanes[sender].received()
    }

    /// Asks a query for a sender, and returns its number. The sender's numbers rise from 0.
    ///
    /// The error is `Closed`, `Exhausted`, `Full` or `Memory`, in this order. It changes nothing.
    pub fn ask(&mut self, sender: usize, query: Query) -> Result<u64, CoreFault>
        requires sender { sender < self.old.shape.senders }
        ensures event { OnOk result (Step S.meaning (Ask sender query) self.old self.new) }
        ensures number { IfOk result (λ n. n ≡ length (sender_at self.old sender).asked) }
        ensures refusal { IfErr result (λ fault. RefusesOrMemory fault (refusal (Ask sender query) self.old)) }
        ensures refused { OnErr result (self.new ≡ self.old) }
    {
        self.lanes[sender].ask(&self.shape, query)
    }

    /// Gives a number that waits to a worker, whichever number of whichever sender it is.
    ///
    /// The error is `HandFull` or `NotAsked`, in this order. It changes nothing.
    pub fn take(&mut self, worker: usize, sender: usize, number: u64) -> Result<(), CoreFault>
        requires worker { worker < self.old.shape.workers }
        requires sender { sender < self.old.shape.senders }
        ensures event { OnOk result (Step S.meaning (Take worker sender number) self.old self.new) }
        ensures held { OnOk result (hand_at self.new worker ≡ Some (sender, number)) }
        ensures refusal { IfErr result (λ fault. Refuses fault (refusal (Take worker sender number) self.old)) }
        ensures refused { OnErr result (self.new ≡ self.old) }
    {
        if let Some(_) = self.hands[worker] {
            return Err(CoreFault::HandFull);
        }
        self.lanes[sender].take(worker, number)?;
        self.hands[worker] = Some((sender, number));
        Ok(())
    }

    /// Answers the number that a worker holds, and returns its sender and the number.
    ///
    /// The error is `HandEmpty`. It changes nothing, and the answer is dropped.
    pub fn finish(&mut self, worker: usize, answer: S::Answer) -> Result<(usize, u64), CoreFault>
        requires worker { worker < self.old.shape.workers }
        requires right { IfSome (hand_at self.old worker)
            (λ ticket. S.shown answer ≡ meaning_of S.meaning self.old ticket) }
        ensures event { OnOk result (Step S.meaning (Finish worker) self.old self.new) }
        ensures ticket { IfOk result (λ ticket. hand_at self.old worker ≡ Some ticket) }
        ensures refusal { IfErr result (λ fault. Refuses fault (refusal (Finish worker) self.old)) }
        ensures refused { OnErr result (self.new ≡ self.old) }
    {
        let Some((sender, number)) = self.hands[worker] else {
            return Err(CoreFault::HandEmpty);
        };
        self.lanes[sender].put(number, Slot::Filled(answer));
        self.hands[worker] = None;
        Ok((sender, number))
    }

    /// Takes the number that a worker holds out of its hand: it waits again. Returns its sender and
    /// the number.
    ///
    /// The error is `HandEmpty`. It changes nothing.
    pub fn give_back(&mut self, worker: usize) -> Result<(usize, u64), CoreFault>
        requires worker { worker < self.old.shape.workers }
        ensures event { OnOk result (Step S.meaning (GiveBack worker) self.old self.new) }
        ensures ticket { IfOk result (λ ticket. hand_at self.old worker ≡ Some ticket) }
        ensures refusal { IfErr result (λ fault. Refuses fault (refusal (GiveBack worker) self.old)) }
        ensures refused { OnErr result (self.new ≡ self.old) }
    {
        let Some((sender, number)) = self.hands[worker] else {
            return Err(CoreFault::HandEmpty);
        };
        self.lanes[sender].put(number, Slot::Open);
        self.hands[worker] = None;
        Ok((sender, number))
    }

    /// Moves the answer of a sender's next number to those that it received, and returns the
    /// number.
    ///
    /// The error is `Ended` or `NotReady`, in this order. It changes nothing.
    pub fn collect(&mut self, sender: usize) -> Result<u64, CoreFault>
        requires sender { sender < self.old.shape.senders }
        ensures event { OnOk result (Step S.meaning (Collect sender) self.old self.new) }
        ensures number { IfOk result (λ n. n ≡ length (sender_at self.old sender).received) }
        ensures refusal { IfErr result (λ fault. Refuses fault (refusal (Collect sender) self.old)) }
        ensures refused { OnErr result (self.new ≡ self.old) }
    {
        self.lanes[sender].collect()
    }

    /// Closes a sender: it asks no more. What it asked is still answered.
    pub fn close(&mut self, sender: usize)
        requires sender { sender < self.old.shape.senders }
        ensures event { Step S.meaning (Close sender) self.old self.new }
    {
        self.lanes[sender].close();
    }
}
