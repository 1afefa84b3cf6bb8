//! How one thread of a pool sleeps, and is woken.

use std::sync::Wait;
use std::sync::atomic::{AtomicBool, AtomicU64, Ordering};
use std::thread::Parker;
use std::time::Duration;

/// After how many milliseconds a thread looks again that nobody woke.
const LIMIT: u64 = 50;

/// Where one thread parks. It says so before it looks for the last time, and whoever makes work for
/// it looks here after that; so one of the two sees the other. No proof rests on it.
#[derive(Debug, Drop)]
pub struct Bell {
    parker: Parker,
    /// Whether the thread parks, or is about to.
    is_parked: AtomicBool,
    /// Whether the thread is woken to take what isn't meant for it.
    is_called: AtomicBool,
    /// Of a sender: the number for whose answer it parks.
    awaited: AtomicU64,
}

impl Bell {
    /// The thread is awake.
    pub fn new() -> Self {
        Bell {
            parker: Parker::new(),
            is_parked: AtomicBool::new(false),
            is_called: AtomicBool::new(false),
            awaited: AtomicU64::new(0),
        }
    }

    /// The thread is about to park; a sender for the answer to this number. After that it looks
    /// once more.
    pub fn announce(&self, number: u64) {
        self.awaited.store(number, Ordering::SeqCst);
        self.is_parked.store(true, Ordering::SeqCst);
    }

    /// From now on the thread counts as awake. Of those who say so, one at most is told that it
    /// counted as parked.
    pub fn rouse(&self) -> bool {
        self.is_parked.load(Ordering::SeqCst) && self.is_parked.swap(false, Ordering::SeqCst)
    }

    /// The same of a sender, where it parks for the answer to this number.
    pub fn rouse_for(&self, number: u64) -> bool {
        self.is_parked.load(Ordering::SeqCst)
            && self.awaited.load(Ordering::SeqCst) == number
            && self.rouse()
    }

    /// Asks the thread to take what isn't meant for it.
    pub fn call(&self) {
        self.is_called.store(true, Ordering::SeqCst);
    }

    /// Whether the thread was asked to, since it was asked last.
    pub fn was_called(&self) -> bool {
        self.is_called.load(Ordering::SeqCst) && self.is_called.swap(false, Ordering::SeqCst)
    }

    /// Sleeps until somebody wakes the thread, or for the limit at most.
    pub fn park<R: Wait>(&self, rt: &R) {
        self.parker.park_timeout(rt, Duration::from_millis(LIMIT));
    }

    /// Wakes the thread.
    pub fn unpark(&self) {
        self.parker.unpark();
    }
}
