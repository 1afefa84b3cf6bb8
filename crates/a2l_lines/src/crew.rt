//! How many workers of a pool share the units. No promise rests on it.

use crate::survey::Load;
use std::num::NonZeroUsize;
use std::thread;
use std::thread::Threads;

/// The workers of a pool, and the processors that they have.
#[derive(Clone, Copy, Debug)]
pub struct Crew {
    /// How many workers there are.
    pub workers: usize,
    /// How many threads can run at one time.
    pub processors: usize,
}

impl Crew {
    /// So many workers on this machine.
    pub fn new<R: Threads>(rt: &R, workers: usize) -> Self {
        let processors = thread::available_parallelism(rt).map_or(1, NonZeroUsize::get);
        Crew {
            workers,
            processors,
        }
    }

    /// How many workers share the units: no more than have a processor, since a worker without one
    /// only keeps the others waiting. Where the answers take longer than the units, one processor
    /// is for the senders, which hand the answers over.
    pub fn sharers(&self, loads: &[Load]) -> usize {
        let mut reading = 0u64;
        let mut answering = 0u64;
        for load in loads {
            reading = reading.wrapping_add(load.size);
            answering = answering.wrapping_add(load.answering());
        }
        let kept = usize::from(answering > reading);
        let free = self.processors.saturating_sub(kept);
        self.workers.min(free).max(1)
    }
}
