//! Which threads of a pool are awake, who wakes whom, and when all end.

use super::bell::Bell;
use std::alloc::{AllocError, Global};
use std::sync::Wait;
use std::sync::atomic::{AtomicBool, AtomicU64, Ordering};
use ticket_core::Shape;

/// The bells of all threads of a pool. No proof rests on them: a thread that nobody wakes looks
/// again by itself.
#[derive(Debug, Drop)]
pub struct Bells {
    senders: Vec<Bell>,
    workers: Vec<Bell>,
    /// How many of the threads are awake.
    awake: AtomicU64,
    /// How many threads can run at one time.
    processors: u64,
    /// How many workers are called to take what isn't meant for them, and haven't done so yet.
    helping: AtomicU64,
    /// Whether the threads are to end.
    has_ended: AtomicBool,
}

/// So many bells.
fn bells_of(alloc: Global, count: usize) -> Result<Vec<Bell>, AllocError> {
    let mut bells = Vec::with_capacity(alloc, count)?;
    for _ in 0..count {
        bells.push(Bell::new())?;
    }
    Ok(bells)
}

impl Bells {
    /// All threads of a shape are awake, of which so many can run at one time.
    pub fn new(alloc: Global, shape: &Shape, processors: usize) -> Result<Self, AllocError> {
        let threads = shape.senders.wrapping_add(shape.workers);
        Ok(Bells {
            senders: bells_of(alloc, shape.senders)?,
            workers: bells_of(alloc, shape.workers)?,
            awake: AtomicU64::new(threads as u64),
            processors: processors as u64,
            helping: AtomicU64::new(0),
            has_ended: AtomicBool::new(false),
        })
    }

    /// The bell of a sender.
    pub fn of_sender(&self, sender: usize) -> Option<&Bell> {
        self.senders.get(sender)
    }

    /// The bell of a worker.
    pub fn of_worker(&self, worker: usize) -> Option<&Bell> {
        self.workers.get(worker)
    }

    /// Whether each thread that is awake has a processor.
    pub fn have_processors(&self) -> bool {
        self.awake.load(Ordering::SeqCst) <= self.processors
    }

    /// A thread is about to park, as `Bell::announce` has it.
    pub fn announce(&self, bell: &Bell, number: u64) {
        bell.announce(number);
        self.awake.fetch_sub(1, Ordering::SeqCst);
    }

    /// A thread that announced that it parks is awake. Returns whether nobody woke it.
    pub fn end_parking(&self, bell: &Bell) -> bool {
        let was_parked = bell.rouse();
        if was_parked {
            self.awake.fetch_add(1, Ordering::SeqCst);
        }
        was_parked
    }

    /// Parks a thread that announced it. Returns whether nobody woke it.
    pub fn park<R: Wait>(&self, rt: &R, bell: &Bell) -> bool {
        bell.park(rt);
        self.end_parking(bell)
    }

    /// Wakes a thread that counts as awake since just now.
    fn unpark(&self, bell: &Bell) {
        self.awake.fetch_add(1, Ordering::SeqCst);
        bell.unpark();
    }

    /// Wakes a thread, where it parks.
    fn wake(&self, bell: &Bell) -> bool {
        let was_parked = bell.rouse();
        if was_parked {
            self.unpark(bell);
        }
        was_parked
    }

    /// Wakes one worker that parks, if there is one.
    fn wake_one(&self) {
        for bell in &self.workers {
            if self.wake(bell) {
                return;
            }
        }
    }

    /// Something waits for this worker, or for any: wakes it, where it parks, or one that parks.
    pub fn wake_worker(&self, worker: Option<usize>) {
        match worker {
            Some(worker) => {
                if let Some(bell) = self.workers.get(worker) {
                    self.wake(bell);
                }
            }
            None => self.wake_one(),
        }
    }

    /// A number of a sender is answered: wakes the sender, where it parks for that.
    pub fn wake_sender(&self, sender: usize, number: u64) {
        if let Some(bell) = self.senders.get(sender) {
            if bell.rouse_for(number) {
                self.unpark(bell);
            }
        }
    }

    /// Has a worker that parks take what isn't meant for it, where it has a processor, or nobody
    /// else does so.
    pub fn call_help(&self) {
        if !self.have_processors() && self.helping.load(Ordering::SeqCst) > 0 {
            return;
        }
        for bell in &self.workers {
            if bell.rouse() {
                self.helping.fetch_add(1, Ordering::SeqCst);
                bell.call();
                self.unpark(bell);
                return;
            }
        }
    }

    /// A worker that was called has taken what it found.
    pub fn end_help(&self) {
        self.helping.fetch_sub(1, Ordering::SeqCst);
    }

    /// From now on all threads are to end.
    pub fn end(&self) {
        self.has_ended.store(true, Ordering::SeqCst);
        for bell in &self.senders {
            self.wake(bell);
        }
        for bell in &self.workers {
            self.wake(bell);
        }
    }

    /// Whether all threads are to end.
    pub fn has_ended(&self) -> bool {
        self.has_ended.load(Ordering::SeqCst)
    }
}
