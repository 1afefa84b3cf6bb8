//! What a worker passes on its way from a query to its answer.

use ticket_core::Query;

/// Is called with each query that a worker took, before the worker solves it. Tests use it to see
/// which queries are in the hands of workers at one moment.
pub trait Gate {
    /// The worker took this number of this sender, with this query. It returns.
    fn enter(&self, sender: usize, number: u64, query: Query);
}
