//! The report on inputs: each query is answered once, and each input picks its lines.

ghost use Rattle.std.specs.Prelude.{◌≡◌, ◌≤◌, IfOk};
ghost use Rattle.a2l_lines.specs.Pool.{shape_of, workers_for};
ghost use Rattle.a2l_lines.specs.Text.{options_shown};
ghost use Rattle.a2l_lines.specs.Symbolize.{Reports};

use crate::crew::Crew;
use crate::input::Input;
use crate::options::Options;
use crate::plan::Plan;
use crate::pool::reply_all;
use crate::reply::Reply;
use crate::resources::Resources;
use crate::shares::sharing_of;
use dw_symbols::Image;
use std::alloc::AllocError;
use std::marker::Brand;
use std::sync::Wait;
use std::thread::Threads;
use ticket_board::{Gate, Queries};
use ticket_core::Shape;

/// How many queries each sender has outstanding at most.
const WINDOW: usize = 16;

/// How many queries each sender asks at most.
const MOST: u64 = 1 << 60;

/// The replies to the queries among some inputs, and what each input picks of them.
#[derive(Debug, Drop)]
pub struct Report {
    /// The reply to each query, in the order in which they were asked.
    pub replies: Vec<Reply>,
    /// For each input 0 where it is a bad address, and else the index of its query in `replies`,
    /// counted from 1.
    pub picks: Vec<usize>,
}

/// The shape of the pool that some options ask for, with no more workers than there are queries,
/// but with one at least.
fn shape_of(options: &Options<'_>, queries: usize) -> Shape
    ensures { result ≡ shape_of options.now.senders (workers_for options.now.workers queries) }
{
    Shape {
        senders: usize::from(options.senders),
        workers: usize::from(options.workers).min(queries).max(1),
        window: WINDOW,
        most: MOST,
    }
}

/// The report on some inputs. Their queries are asked in the order of a plan, so that what one
/// unit answers is asked at one time, and the workers share the units.
pub fn report_of<T: Threads + Wait + Sync, G: Gate + Sync>(
    on: &Resources<'_, T>,
    image: &Image<'_>,
    options: &Options<'_>,
    inputs: &[Input],
    gate: &G,
) -> Result<Report, AllocError>
    requires workers { (1 ≤ options.now.workers) × (options.now.workers ≤ 64) }
    requires senders { (1 ≤ options.now.senders) × (options.now.senders ≤ 64) }
    ensures { IfOk result (Reports (options_shown options.now) image.now inputs.now) }
{
    let alloc = on.alloc;
    let shared = sharing_of(alloc, inputs)?;
    let shape = shape_of(options, shared.asked.len());
    let crew = Crew {
        workers: shape.workers,
        processors: on.processors,
    };
    let plan = Plan::new(alloc, image, &shared.asked, crew)?;
    let sharing = shared.in_order(alloc, &plan.order)?;
    let queries = Queries {
        asked: &sharing.asked,
        owners: &plan.owners,
        processors: on.processors,
    };
    let replies = reply_all::<_, _, Brand>(on, image, shape, queries, options, gate)?;
    Ok(Report {
        replies,
        picks: sharing.picks,
    })
}
