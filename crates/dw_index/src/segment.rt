//! Segments of addresses with one owner.

/// The addresses from `begin` on and below the next segment's begin, and the owner that all of them
/// have; `None` for a gap.
#[derive(Clone, Copy, Debug)]
pub(crate) struct Segment {
    pub begin: u64,
    pub owner: Option<usize>,
}

/// What is left of a list of segments, and the owner of the addresses before it.
#[derive(Clone, Copy, Debug)]
pub(crate) struct Side<'a> {
    pub owner: Option<usize>,
    pub rest: &'a [Segment],
}
