//! What a run works with.

use std::alloc::Global;

/// The threads of a run's pool, and its memory.
#[derive(Drop)]
pub struct Resources<'t, T> {
    pub threads: &'t T,
    pub alloc: Global,
    /// How many of the threads can run at one time. It decides how many workers share the units,
    /// and no promise rests on it.
    pub processors: usize,
}
