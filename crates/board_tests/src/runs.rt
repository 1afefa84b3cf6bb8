//! Long runs of a core by chance, beside its plain definition.

ghost use Rattle.std.specs.Prelude.{◌≡◌, ◌<◌, ◌^◌};

mod plain;

use crate::core_desk::CoreDesk;
use crate::queries::draw;
use crate::solver::{Echo, KEY};
use plain::{Misuse, Plain};
use std::alloc::Global;
use std::process::Abort;
use std::test::Fail;
use test_inputs::draws::Draws;
use ticket_core::Shape;

/// One call, chosen by chance, of the core and of its plain definition. They give the same. Returns
/// whether an answer was received.
fn play(
    rt: &impl Abort,
    desk: &mut CoreDesk<Echo>,
    plain: &mut Plain,
    draws: &mut Draws,
) -> Result<bool, Misuse>
    requires senders { 0 < desk.old.shape.senders }
    requires workers { 0 < desk.old.shape.workers }
    requires window { 0 < desk.old.shape.window }
    ensures { desk.new.shape ≡ desk.old.shape }
{
    let shape = desk.shape;
    let sender = draws.below(shape.senders);
    let worker = draws.below(shape.workers);
    let next = plain.next(sender)?;
    match draws.below(16) {
        0..=3 => {
            let query = draw(draws);
            assert_eq!(rt; desk.ask(sender, query), plain.ask(sender, query)?);
        }
        4..=8 => {
            let number = next.saturating_add(draws.below(shape.window) as u64);
            assert_eq!(rt;
                desk.take(worker, sender, number),
                plain.take(worker, sender, number)?
            );
        }
        9..=11 => {
            assert_eq!(rt; desk.finish(worker), plain.finish(worker)?);
        }
        12 => {
            assert_eq!(rt; desk.give_back(worker), plain.give_back(worker)?);
        }
        _ => {
            let collected = desk.collect(sender);
            assert_eq!(rt; collected, plain.collect(sender)?);
            return Ok(collected.is_ok());
        }
    }
    Ok(false)
}

/// Each sender's lists are those of the plain definition.
fn compare(rt: &impl Abort, desk: &CoreDesk<Echo>, plain: &Plain) -> Result<(), Misuse> {
    for sender in 0..desk.shape.senders {
        let lists = plain.senders.get(sender).ok_or(Misuse)?;
        assert_eq!(rt; desk.asked(sender), lists.asked.as_slice());
        assert_eq!(rt; desk.received(sender), lists.received.as_slice());
    }
    Ok(())
}

/// Calls of a core of four senders and four workers until so many answers were received.
fn play_all(rt: &impl Abort, alloc: Global, queries: u64) -> Result<(), Fail>
    requires { queries < 2 ^ 32 }
{
    let shape = Shape {
        senders: 4,
        workers: 4,
        window: 8,
        most: queries / 4,
    };
    let mut desk = CoreDesk::new(alloc, shape, &KEY)?;
    let mut plain = Plain::new(alloc, shape)?;
    let mut draws = Draws::new(2);
    let mut received = 0;
    for _ in 0..100 * queries {
        if received == queries {
            break;
        }
        if play(rt, &mut desk, &mut plain, &mut draws)? {
            received += 1;
        }
    }
    assert_eq!(rt; received, queries);
    compare(rt, &desk, &plain)?;
    Ok(())
}

// The time of a run grows with its queries: this one takes half the time of the next
// (`bench/core.sh`).
#[test]
fn fifty_thousand_queries(rt: HostRuntime) -> Result<(), Fail> {
    play_all(&rt, rt.alloc(), 50_000)
}

#[test]
fn a_hundred_thousand_queries(rt: HostRuntime) -> Result<(), Fail> {
    play_all(&rt, rt.alloc(), 100_000)
}
