//! What the calls of a client and of a worker return.

/// What a client learns of its next number.
#[derive(Debug, Drop, PartialEq, Eq)]
pub enum Next<A: Drop> {
    /// It isn't answered yet, or wasn't asked yet.
    Pending,
    /// The number, and its answer.
    Answer(u64, A),
    /// The client is closed, and received everything.
    Ended,
}

/// What a worker did.
#[derive(Clone, Copy, Debug, PartialEq, Eq)]
pub enum Turn {
    /// It answered this number of this sender.
    Answered(usize, u64),
    /// It answered nothing.
    Idle,
}
