//! Answering queries by a pool of threads over one file.

ghost use Rattle.std.specs.Prelude.{◌≡◌, length, IfOk, IfErr, OnOk};
ghost use Rattle.dw_symbols.specs.Told.{means};
ghost use Rattle.ticket_board.specs.Pool.{PoolFits, RefusesPool};
ghost use Rattle.a2l_lines.specs.Pool.{AreAnswersOf};
ghost use Rattle.a2l_lines.specs.Reply.{AreReplies};
ghost use Rattle.a2l_lines.specs.Text.{options_shown};

use crate::contexts::Contexts;
use crate::crew::Crew;
use crate::options::Options;
use crate::plan::Plan;
use crate::replier::{Replier, Repliers, Style};
use crate::reply::Reply;
use crate::resources::Resources;
use dw_symbols::{Answer, Context, Image, law_of_shown};
use std::alloc::{AllocError, Global};
use std::marker::PhantomData;
use std::sync::Wait;
use std::thread::Threads;
use ticket_board::{Gate, PoolFault, Queries, pool_fits};
use ticket_core::{Query, Shape};

/// The answers to queries that are meant for these workers, as `run_pool` gives them.
fn run_planned<'a, R: Threads + Wait + Sync, G: Gate + Sync>(
    rt: &R,
    alloc: Global,
    image: &Image<'a>,
    shape: Shape,
    queries: Queries<'_>,
    gate: &G,
) -> Result<Vec<Answer<'a>>, PoolFault>
    ensures answers { IfOk result (λ answers. AreAnswersOf image.now queries.entry.asked.now answers.items) }
    ensures fits { OnOk result (PoolFits shape (length queries.entry.asked.now)) }
    ensures refusal { IfErr result (λ fault. RefusesPool fault shape (length queries.entry.asked.now)) }
{
    let maker = Contexts { image };
    law_of_shown();
    let answers = ticket_board::run_pool::<Context<'_, 'a>, R, _, G>(
        rt, alloc, &maker, shape, queries, gate,
    )?;
    Ok(answers)
}

/// What each of some queries means: the answer at `i` is that of `queries[i]`. There is a thread
/// for each sender and each worker of the shape, query `i` is asked by sender `i % senders`, and
/// each worker has a context of its own. The gate is entered for each query that a worker took.
/// Each unit is read by one worker.
///
/// The error is `BadShape` exactly where the shape is past its limits, or some sender would have
/// more than `most` queries; else `Memory` where an allocation or a thread was refused.
pub fn run_pool<'a, R: Threads + Wait + Sync, G: Gate + Sync>(
    rt: &R,
    alloc: Global,
    image: &Image<'a>,
    shape: Shape,
    queries: &[Query],
    gate: &G,
) -> Result<Vec<Answer<'a>>, PoolFault>
    ensures answers { IfOk result (λ answers. AreAnswersOf image.now queries.now answers.items) }
    ensures fits { OnOk result (PoolFits shape (length queries.now)) }
    ensures refusal { IfErr result (λ fault. RefusesPool fault shape (length queries.now)) }
{
    if !pool_fits(&shape, queries.len()) {
        return Err(PoolFault::BadShape);
    }
    let crew = Crew::new(rt, shape.workers);
    let plan = Plan::as_given(alloc, image, queries, crew)?;
    let queries = Queries {
        asked: queries,
        owners: &plan.owners,
        processors: crew.processors,
    };
    run_planned(rt, alloc, image, shape, queries, gate)
}

/// The replies to some queries that are meant for these workers, in their order.
pub fn reply_all<'o, R: Threads + Wait + Sync, G: Gate + Sync, O: Style + Send + Sync>(
    on: &Resources<'_, R>,
    image: &Image<'_>,
    shape: Shape,
    queries: Queries<'_>,
    options: &'o Options<'o>,
    gate: &G,
) -> Result<Vec<Reply>, AllocError>
    requires fits { PoolFits shape (length queries.asked.now) }
    requires style { options_shown options.now ≡ O.options }
    ensures replies { IfOk result (λ replies.
        AreReplies (options_shown options.now) (means image.now) queries.entry.asked.now replies.items) }
{
    let maker = Repliers::<O> {
        contexts: Contexts { image },
        options,
        style: PhantomData,
    };
    let replies = ticket_board::run_pool::<Replier<'_, '_, '_, O>, R, _, G>(
        on.threads, on.alloc, &maker, shape, queries, gate,
    );
    match replies {
        Ok(replies) => Ok(replies),
        Err(PoolFault::BadShape) => unreachable!(),
        Err(PoolFault::Memory) => Err(AllocError),
    }
}
