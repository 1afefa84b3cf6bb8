//! How the answers of all senders come into the order of the queries.

ghost use Rattle.std.specs.Prelude.{◌≡◌, ◌+◌, ◌<◌, ◌≤◌, length, map, slice_index_or, IfOk};
ghost use Rattle.std.specs.VecDeque.{deque_len, deque_capacity};
ghost use Rattle.ticket_core.specs.declared.query.QueryKind.TheVariants.{Address};
ghost use Rattle.ticket_board.specs.Pool.{AreAnswers, AreLanesFrom};

use super::task::{Lane, Task};
use std::alloc::Global;
use std::collections::VecDeque;
use ticket_core::{NoMemory, Solver};

/// Takes the answer to the query at `i`: the first of the first lane, which then comes last.
fn take_answer<S: Solver>(task: &Task<'_>, i: usize, lanes: &mut VecDeque<Lane<S>>) -> S::Answer
    requires within { i < length task.now.queries.asked.now }
    requires senders { (1 ≤ task.now.shape.senders) × (deque_len lanes.old ≡ task.now.shape.senders) }
    requires lanes { AreLanesFrom S.shown S.meaning task.now i (map (λ lane. lane.items) lanes.old.items) }
    ensures answer { S.shown result
        ≡ S.meaning task.now.key.now (slice_index_or task.now.queries.asked.now i (Address 0)) }
    ensures senders { deque_len lanes.new ≡ deque_len lanes.old }
    ensures lanes { AreLanesFrom S.shown S.meaning task.now (i + 1) (map (λ lane. lane.items) lanes.new.items) }
{
    let Some(mut lane) = lanes.pop_front() else {
        unreachable!()
    };
    let Some(answer) = lane.pop_front() else {
        unreachable!()
    };
    lanes.push_back_reserved(lane);
    answer
}

/// The answers in the order of the queries, out of a lane of each sender. The error says that an
/// allocation was refused.
pub fn gather<S: Solver>(
    alloc: Global,
    task: &Task<'_>,
    lanes: VecDeque<Lane<S>>,
) -> Result<Vec<S::Answer>, NoMemory>
    requires senders { (1 ≤ task.now.shape.senders) × (deque_len lanes ≡ task.now.shape.senders) }
    requires lanes { AreLanesFrom S.shown S.meaning task.now 0 (map (λ lane. lane.items) lanes.items) }
    ensures answers { IfOk result (λ answers. AreAnswers S.shown S.meaning
        task.now.key.now task.now.queries.asked.now answers.items) }
{
    let mut lanes = lanes;
    let mut answers = Vec::with_capacity(alloc, task.queries.asked.len())?;
    for i in 0..task.queries.asked.len() {
        answers.push_reserved(take_answer::<S>(task, i, &mut lanes));
    }
    Ok(answers)
}
