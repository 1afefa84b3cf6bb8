//! What is done with the queries of one sender. A call takes its memory before it changes anything.

ghost use Rattle.std.specs.Prelude.{◌≡◌, ◌<◌, false, None, OnOk, OnErr, IfOk, MatchResult, vec_len, vec_capacity};
ghost use Rattle.ticket_core.specs.State.{Shown, fresh, Held, Waiting, place_of, next_of};
ghost use Rattle.ticket_core.specs.declared.fault.CoreFault.TheVariants.{NotAsked};
ghost use Rattle.ticket_core.specs.Events.{asks, puts, collects, closes};
ghost use Rattle.ticket_core.specs.Refusals.{ask_refusal, collect_refusal, is_waiting, Refuses, RefusesOrMemory};
ghost use Rattle.ticket_core.specs.Shown.{sender_shown, place_shown};

use crate::fault::CoreFault;
use crate::lane::{Lane, Slot};
use crate::query::Query;
use crate::shape::Shape;
use std::alloc::{AllocError, Global};
use std::mem;

impl<A: Drop> Lane<A> {
    /// A lane in which nothing was asked. It takes no memory.
    pub fn new(alloc: Global) -> Self
        ensures { (shown : A → Shown) → sender_shown shown result ≡ fresh }
    {
        Lane {
            asked: Vec::new(alloc),
            received: Vec::new(alloc),
            closed: false,
            slots: Vec::new(alloc),
        }
    }

    /// The queries that were asked, by number.
    pub fn asked(&self) -> &[Query]
        ensures { result.now ≡ self.now.asked.items }
    {
        &self.asked
    }

    /// The answers that were received, by number.
    pub fn received(&self) -> &[A]
        ensures { result.now ≡ self.now.received.items }
    {
        &self.received
    }

    /// Room for one query more: its words, its slot, and its answer when it is received.
    fn grow(&mut self) -> Result<(), AllocError>
        ensures kept { (shown : A → Shown) → sender_shown shown self.new ≡ sender_shown shown self.old }
        ensures asked { OnOk result (vec_len self.new.asked < vec_capacity self.new.asked) }
        ensures slots { OnOk result (vec_len self.new.slots < vec_capacity self.new.slots) }
        ensures received { OnOk result (vec_len self.new.asked < vec_capacity self.new.received) }
    {
        let answers = self.asked.len() - self.received.len();
        self.asked.reserve(1)?;
        self.slots.reserve(1)?;
        self.received.reserve(answers + 1)?;
        Ok(())
    }

    /// Asks a query, and returns its number.
    pub fn ask(&mut self, shape: &Shape, query: Query) -> Result<u64, CoreFault>
        ensures number { IfOk result (λ n. n ≡ vec_len self.old.asked) }
        ensures asked { OnOk result ((shown : A → Shown)
            → sender_shown shown self.new ≡ asks query (sender_shown shown self.old)) }
        ensures kept { OnErr result ((shown : A → Shown) → sender_shown shown self.new ≡ sender_shown shown self.old) }
        ensures refusal { (shown : A → Shown) → MatchResult result
            (λ _. ask_refusal shape.now (sender_shown shown self.old) ≡ None)
            (λ fault. RefusesOrMemory fault (ask_refusal shape.now (sender_shown shown self.old))) }
    {
        if self.closed {
            return Err(CoreFault::Closed);
        }
        let number = self.asked.len();
        if number as u64 >= shape.most {
            return Err(CoreFault::Exhausted);
        }
        if number - self.received.len() >= shape.window {
            return Err(CoreFault::Full);
        }
        self.grow()?;
        self.asked.push_reserved(query);
        self.slots.push_reserved(Slot::Open);
        Ok(number as u64)
    }

    /// Gives a number that waits to a worker.
    pub fn take(&mut self, worker: usize, number: u64) -> Result<(), CoreFault>
        ensures taken { OnOk result ((shown : A → Shown)
            → sender_shown shown self.new ≡ puts number (Held worker) (sender_shown shown self.old)) }
        ensures kept { OnErr result ((shown : A → Shown) → sender_shown shown self.new ≡ sender_shown shown self.old) }
        ensures refusal { (shown : A → Shown) → MatchResult result
            (λ _. place_of (sender_shown shown self.old) number ≡ Waiting)
            (λ fault. (fault ≡ NotAsked) × (is_waiting (place_of (sender_shown shown self.old) number) ≡ false)) }
    {
        let Some(Slot::Open) = self.slots.get(number as usize) else {
            return Err(CoreFault::NotAsked);
        };
        self.slots[number as usize] = Slot::Out(worker);
        Ok(())
    }

    /// Puts a number that was asked into another slot.
    pub fn put(&mut self, number: u64, slot: Slot<A>)
        requires asked { number < vec_len self.old.slots }
        ensures { (shown : A → Shown) → sender_shown shown self.new
            ≡ puts number (place_shown shown slot) (sender_shown shown self.old) }
    {
        self.slots[number as usize] = slot;
    }

    /// Moves the answer of the next number to those that were received, and returns the number.
    pub fn collect(&mut self) -> Result<u64, CoreFault>
        ensures number { IfOk result (λ n. n ≡ vec_len self.old.received) }
        ensures collected { OnOk result ((shown : A → Shown)
            → sender_shown shown self.new ≡ collects (sender_shown shown self.old)) }
        ensures kept { OnErr result ((shown : A → Shown) → sender_shown shown self.new ≡ sender_shown shown self.old) }
        ensures refusal { (shown : A → Shown) → MatchResult result
            (λ _. collect_refusal (sender_shown shown self.old) ≡ None)
            (λ fault. Refuses fault (collect_refusal (sender_shown shown self.old))) }
    {
        let number = self.received.len();
        if number == self.slots.len() {
            return Err(if self.closed {
                CoreFault::Ended
            } else {
                CoreFault::NotReady
            });
        }
        match mem::replace(&mut self.slots[number], Slot::Spent) {
            Slot::Filled(answer) => {
                self.received.push_reserved(answer);
                Ok(number as u64)
            }
            other => {
                self.slots[number] = other;
                Err(CoreFault::NotReady)
            }
        }
    }

    /// Asks no more.
    pub fn close(&mut self)
        ensures { (shown : A → Shown) → sender_shown shown self.new ≡ closes (sender_shown shown self.old) }
    {
        self.closed = true;
    }
}
