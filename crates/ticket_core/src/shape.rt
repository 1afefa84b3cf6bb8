//! How large a core is.

ghost use Rattle.std.specs.Prelude.{IsTrue, ◌↔◌};
ghost use Rattle.ticket_core.specs.Shape.{Fits};

/// The greatest number of senders.
pub const MOST_SENDERS: usize = 64;

/// The greatest number of workers.
pub const MOST_WORKERS: usize = 64;

/// The greatest window.
pub const MOST_WINDOW: usize = 1024;

/// The greatest number of queries that a sender may ask.
pub const MOST_QUERIES: u64 = 1 << 60;

/// The shape of a core. Senders and workers are numbered from 0.
#[derive(Clone, Copy, Debug, PartialEq, Eq)]
pub struct Shape {
    /// How many senders ask.
    pub senders: usize,
    /// How many workers answer.
    pub workers: usize,
    /// How many numbers of a sender may be outstanding: asked and not yet received.
    pub window: usize,
    /// How many queries a sender may ask in all.
    pub most: u64,
}

impl Shape {
    /// Whether the shape is within the limits: 1 to 64 senders, 1 to 64 workers, a window of 1 to
    /// 1024, and 1 to 2^60 queries a sender.
    pub fn fits(&self) -> bool
        ensures { IsTrue result ↔ Fits self.now }
    {
        (1..=MOST_SENDERS).contains(&self.senders)
            && (1..=MOST_WORKERS).contains(&self.workers)
            && (1..=MOST_WINDOW).contains(&self.window)
            && (1..=MOST_QUERIES).contains(&self.most)
    }
}
