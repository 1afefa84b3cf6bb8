//! What is asked of an open file.

/// A question about a file.
#[derive(Clone, Copy)]
pub(crate) enum Question<'q> {
    /// What addresses mean.
    Frames(&'q [u64]),
    /// Where addresses come from, by line tables alone.
    Locations(&'q [u64]),
    /// The pieces of a span, from `low` on and below `high`.
    Pieces { low: u64, high: u64 },
}
