//! In which order the queries of a run are asked, and which worker each of them is meant for.

ghost use Rattle.std.specs.Prelude.{IfOk};
ghost use Rattle.a2l_lines.specs.Order.{IsOrder};

use crate::crew::Crew;
use crate::survey::survey_of;
use crate::turns::{Turn, Turns};
use dw_symbols::Image;
use std::alloc::{AllocError, Global};
use ticket_core::Query;

/// The worker of a query without a unit: the first one.
const FIRST: u8 = 0;

/// The plan of a run, from one look at the units of its queries.
#[derive(Debug, Drop)]
pub struct Plan {
    /// The index of each query, after its turn, in the order in which they are asked.
    pub order: Vec<(Turn, usize)>,
    /// The number of the worker of each query, in that order.
    pub owners: Vec<u8>,
}

/// The index of each query, after its turn, in order of their turns. The turns of one unit are in
/// order already, and a sort that keeps equal ones in order merges them as they are.
fn order_of(
    alloc: Global,
    turns: &mut Turns<'_>,
    queries: &[Query],
) -> Result<Vec<(Turn, usize)>, AllocError>
    ensures { IfOk result (λ order. IsOrder queries.now order.items) }
{
    let mut order = Vec::new(alloc);
    for i in 0..queries.len() {
        order.push((turns.next(i), i))?;
    }
    order.sort()?;
    Ok(order)
}

/// The number of the worker of each query, in an order of their indexes.
fn owners_of(
    alloc: Global,
    turns: &Turns<'_>,
    order: &[(Turn, usize)],
) -> Result<Vec<u8>, AllocError> {
    let mut owners = Vec::with_capacity(alloc, order.len())?;
    for (_, index) in order {
        let worker = match turns.share(*index) {
            Some(share) => (share.worker % 64) as u8,
            None => FIRST,
        };
        owners.push(worker)?;
    }
    Ok(owners)
}

impl Plan {
    /// The order in which queries are best asked of a pool of these workers, and their workers.
    pub fn new(
        alloc: Global,
        image: &Image<'_>,
        queries: &[Query],
        crew: Crew,
    ) -> Result<Self, AllocError>
        ensures { IfOk result (λ plan. IsOrder queries.now plan.order.items) }
    {
        let survey = survey_of(alloc, image, queries)?;
        let mut turns = Turns::new(alloc, &survey, crew.sharers(&survey.loads))?;
        let order = order_of(alloc, &mut turns, queries)?;
        let owners = owners_of(alloc, &turns, &order)?;
        Ok(Plan { order, owners })
    }

    /// The order in which queries are given, and the workers of a pool that share their units.
    pub fn as_given(
        alloc: Global,
        image: &Image<'_>,
        queries: &[Query],
        crew: Crew,
    ) -> Result<Self, AllocError> {
        let survey = survey_of(alloc, image, queries)?;
        let turns = Turns::new(alloc, &survey, crew.sharers(&survey.loads))?;
        let mut order = Vec::with_capacity(alloc, queries.len())?;
        for i in 0..queries.len() {
            order.push(((0, 0), i))?;
        }
        let owners = owners_of(alloc, &turns, &order)?;
        Ok(Plan { order, owners })
    }
}
