//! What the threads of a pool share.

use super::bells::Bells;
use super::task::Task;
use crate::board::Board;
use ticket_core::Solver;

/// What all threads of a pool share: its board, what it has to answer, and who is awake.
#[derive(Drop)]
pub struct Pool<'p, 'a, S: Solver> {
    pub board: Board<'a, S>,
    pub task: Task<'p>,
    pub bells: Bells,
}

/// A pool, and what its workers share besides: what makes their solvers, and the gate that they
/// pass.
#[derive(Drop)]
pub struct Service<'p, 'a, S: Solver, M, G> {
    pub pool: Pool<'p, 'a, S>,
    pub maker: &'p M,
    pub gate: &'p G,
}
