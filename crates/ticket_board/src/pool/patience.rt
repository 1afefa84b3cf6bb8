//! How often a thread of a pool looks again before it parks.

use std::hint;

/// By which part of the most a thread looks longer after a look that found something.
const GAIN: usize = 256;

/// Which part of the most it looks at any rate: for some twenty microseconds, in which a thread
/// with a processor gives several answers. Without it, threads that parked for one long wait would
/// go on to park for each short one.
const LEAST: usize = 16;

/// A thread looks again and again before it parks, since what it waits for mostly comes within
/// microseconds. Each time that this is in vain, as on busy processors, it looks half as long the
/// next time, and each time that it isn't, somewhat longer. No proof rests on it.
#[derive(Debug, Drop)]
pub struct Patience {
    /// How often it looks again at most.
    most: usize,
    /// How often it looks again as things are.
    limit: usize,
    /// How often it has looked again.
    looks: usize,
}

impl Patience {
    /// It looks again so many times at most.
    pub fn new(most: usize) -> Self {
        Patience {
            most,
            limit: most,
            looks: 0,
        }
    }

    /// There was something to do.
    pub fn succeed(&mut self) {
        if self.looks > 0 {
            let gain = (self.most / GAIN).saturating_add(1);
            self.limit = self.limit.saturating_add(gain).min(self.most);
            self.looks = 0;
        }
    }

    /// Whether the thread is to look again, before it parks.
    pub fn looks_again(&mut self) -> bool {
        if self.looks >= self.limit {
            return false;
        }
        self.looks = self.looks.saturating_add(1);
        hint::spin_loop();
        true
    }

    /// The thread is about to park.
    pub fn give_up(&mut self) {
        if self.looks >= self.limit {
            self.limit = (self.limit / 2).max(self.most / LEAST);
        }
        self.looks = 0;
    }
}
