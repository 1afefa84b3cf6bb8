//! Queries in the order in which they are asked.

ghost use Rattle.std.specs.Prelude.{◌≡◌, ◌<◌, length, IfOk};
ghost use Rattle.std.specs.List.{All};
ghost use Rattle.a2l_lines.specs.Order.{IsOrder, ArePicksIn, asked_in};

use crate::turns::Turn;
use std::alloc::{AllocError, Global};
use ticket_core::Query;

/// The queries in an order of their indexes.
pub fn in_order(
    alloc: Global,
    queries: &[Query],
    order: &[(Turn, usize)],
) -> Result<Vec<Query>, AllocError>
    requires within { All (λ pair. pair.1 < length queries.now) order.now }
    ensures { IfOk result (λ asked. asked.items ≡ asked_in queries.now order.now) }
{
    let mut asked = Vec::new(alloc);
    for (_, place) in order {
        asked.push(queries[*place])?;
    }
    Ok(asked)
}

/// For each pick of queries the pick of the same one in an order of their indexes. 0 is none, and
/// k + 1 picks the query at k.
pub fn picks_in(
    alloc: Global,
    queries: &[Query],
    order: &[(Turn, usize)],
) -> Result<Vec<usize>, AllocError>
    requires order { IsOrder queries.now order.now }
    ensures { IfOk result (λ picks. ArePicksIn queries.now order.now picks.items) }
{
    let mut picks = vec![in alloc; 0usize; queries.len() + 1]?;
    for i in 0..order.len() {
        picks[order[i].1 + 1] = i + 1;
    }
    Ok(picks)
}
