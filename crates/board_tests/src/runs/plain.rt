//! The core once more, as plainly as it can be said: lists that are searched. A query is answered
//! with what it asks about.

use std::alloc::{AllocError, AllocFailed, Global};
use ticket_core::{CoreFault, Query, QueryKind, Shape};

/// A sender: what it asked, which numbers wait, and the answers so far.
#[derive(Drop)]
pub struct Sender {
    pub asked: Vec<Query>,
    waiting: Vec<u64>,
    answers: Vec<(u64, QueryKind)>,
    pub received: Vec<QueryKind>,
    closed: bool,
}

#[derive(Drop)]
pub struct Plain {
    shape: Shape,
    pub senders: Vec<Sender>,
    hands: Vec<Option<(usize, u64)>>,
}

/// A call whose sender or worker isn't there, or out of memory.
#[derive(Debug, Drop)]
pub struct Misuse;

impl From<AllocError> for Misuse {
    fn from(_error: AllocError) -> Self {
        Misuse
    }
}

impl<T: Drop> From<AllocFailed<T>> for Misuse {
    fn from(_error: AllocFailed<T>) -> Self {
        Misuse
    }
}

impl Sender {
    fn new(alloc: Global) -> Self {
        Sender {
            asked: Vec::new(alloc),
            waiting: Vec::new(alloc),
            answers: Vec::new(alloc),
            received: Vec::new(alloc),
            closed: false,
        }
    }

    fn has_received_all(&self) -> bool {
        self.received.len() == self.asked.len()
    }
}

impl Plain {
    pub fn new(alloc: Global, shape: Shape) -> Result<Self, AllocError> {
        let mut senders = Vec::new(alloc);
        for _ in 0..shape.senders {
            senders.push(Sender::new(alloc))?;
        }
        let hands = vec![in alloc; None; shape.workers]?;
        Ok(Plain {
            shape,
            senders,
            hands,
        })
    }

    /// The next number that a sender receives.
    pub fn next(&self, s: usize) -> Result<u64, Misuse> {
        Ok(self.senders.get(s).ok_or(Misuse)?.received.len() as u64)
    }

    pub fn ask(&mut self, s: usize, query: Query) -> Result<Result<u64, CoreFault>, Misuse> {
        let shape = self.shape;
        let sender = self.senders.get_mut(s).ok_or(Misuse)?;
        let number = sender.asked.len();
        if sender.closed {
            return Ok(Err(CoreFault::Closed));
        }
        if number as u64 == shape.most {
            return Ok(Err(CoreFault::Exhausted));
        }
        if number == sender.received.len().saturating_add(shape.window) {
            return Ok(Err(CoreFault::Full));
        }
        sender.asked.push(query)?;
        sender.waiting.push(number as u64)?;
        Ok(Ok(number as u64))
    }

    pub fn take(&mut self, w: usize, s: usize, n: u64) -> Result<Result<(), CoreFault>, Misuse> {
        let hand = self.hands.get_mut(w).ok_or(Misuse)?;
        let sender = self.senders.get_mut(s).ok_or(Misuse)?;
        if hand.is_some() {
            return Ok(Err(CoreFault::HandFull));
        }
        let Some(place) = sender.waiting.iter().position(|number| *number == n) else {
            return Ok(Err(CoreFault::NotAsked));
        };
        sender.waiting.remove(place);
        *hand = Some((s, n));
        Ok(Ok(()))
    }

    pub fn finish(&mut self, w: usize) -> Result<Result<(usize, u64), CoreFault>, Misuse> {
        let hand = self.hands.get_mut(w).ok_or(Misuse)?;
        let Some((s, n)) = *hand else {
            return Ok(Err(CoreFault::HandEmpty));
        };
        let sender = self.senders.get_mut(s).ok_or(Misuse)?;
        let query = *sender.asked.get(n as usize).ok_or(Misuse)?;
        sender.answers.push((n, query.kind()))?;
        *hand = None;
        Ok(Ok((s, n)))
    }

    pub fn give_back(&mut self, w: usize) -> Result<Result<(usize, u64), CoreFault>, Misuse> {
        let hand = self.hands.get_mut(w).ok_or(Misuse)?;
        let Some((s, n)) = *hand else {
            return Ok(Err(CoreFault::HandEmpty));
        };
        let sender = self.senders.get_mut(s).ok_or(Misuse)?;
        sender.waiting.push(n)?;
        *hand = None;
        Ok(Ok((s, n)))
    }

    pub fn collect(&mut self, s: usize) -> Result<Result<u64, CoreFault>, Misuse> {
        let sender = self.senders.get_mut(s).ok_or(Misuse)?;
        if sender.closed && sender.has_received_all() {
            return Ok(Err(CoreFault::Ended));
        }
        let next = sender.received.len() as u64;
        let Some(place) = sender.answers.iter().position(|answer| answer.0 == next) else {
            return Ok(Err(CoreFault::NotReady));
        };
        let (_, answer) = sender.answers.remove(place);
        sender.received.push(answer)?;
        Ok(Ok(next))
    }

    pub fn close(&mut self, s: usize) -> Result<(), Misuse> {
        self.senders.get_mut(s).ok_or(Misuse)?.closed = true;
        Ok(())
    }
}
