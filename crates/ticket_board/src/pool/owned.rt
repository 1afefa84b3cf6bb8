//! What is meant for one worker. No proof rests on it: any worker may answer any query.

use super::task::Task;
use crate::board::Board;
use ticket_core::Solver;

/// What of a task is meant for one worker.
#[derive(Clone, Copy, Debug)]
pub struct Owned<'q> {
    /// The task.
    pub task: Task<'q>,
    /// The number of the worker.
    pub worker: usize,
}

impl Owned<'_> {
    /// How many cells the board has.
    pub fn cells(&self) -> usize {
        self.task.shape.senders.wrapping_mul(self.task.shape.window)
    }

    /// Whether a number of a sender is meant for the worker.
    fn has(&self, sender: usize, number: u64) -> bool {
        match self.task.owner_of(sender, number) {
            Some(owner) => owner == self.worker,
            None => true,
        }
    }

    /// The first of these cells where a number waits that is meant for the worker.
    fn find_in<'a, S: Solver>(
        &self,
        board: &Board<'a, S>,
        low: usize,
        high: usize,
    ) -> Option<usize> {
        for cell in low..high {
            let Some((sender, number)) = board.waits_at(cell) else {
                continue;
            };
            if self.has(sender, number) {
                return Some(cell);
            }
        }
        None
    }

    /// The first cell, from this one on and round from there, where a number waits that is meant
    /// for the worker.
    pub fn find<'a, S: Solver>(&self, board: &Board<'a, S>, from: usize) -> Option<usize> {
        let cells = self.cells();
        match self.find_in(board, from, cells) {
            Some(cell) => Some(cell),
            None => self.find_in(board, 0, from.min(cells)),
        }
    }
}
