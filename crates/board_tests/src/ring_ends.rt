//! The ends of a ring, used one after the other.

ghost use Rattle.std.specs.Prelude.{◌≡◌, ◌<◌, IfOk};
ghost use Rattle.ticket_board.specs.Ring.Ends.{IsAskerOf};
ghost use Rattle.ticket_board.specs.Ring.Takers.{IsTakerOf, HasEmptyHand};

use crate::queries::query_of;
use crate::shapes::shape;
use crate::solver::{Echo, KEY};
use dw_bytes::Steps;
use std::alloc::Global;
use std::marker::Brand;
use std::process::Abort;
use std::sync::ledger::{Blank, Ledger};
use std::test::Fail;
use ticket_board::ring::{Asker, Ring, Taker};
use ticket_board::{AskFault, BoardFault};
use ticket_core::{Query, QueryKind, Shape, Solver};

/// A ring with the ends of its two senders and of its two workers.
#[derive(Drop)]
pub struct Ends<'a, S: Solver> {
    pub ring: Ring<'a, S>,
    pub first_asker: Asker<S>,
    pub second_asker: Asker<S>,
    pub first_taker: Taker<S>,
    pub second_taker: Taker<S>,
    ghost first_asker_of: { IsAskerOf ring first_asker },
    ghost second_asker_of: { IsAskerOf ring second_asker },
    ghost first_taker_of: { IsTakerOf ring first_taker },
    ghost second_taker_of: { IsTakerOf ring second_taker },
    ghost first_empty: { HasEmptyHand first_taker },
    ghost second_empty: { HasEmptyHand second_taker },
}

/// A ring of a shape of two senders and two workers.
pub fn open_ends<'a, S: Solver>(
    alloc: Global,
    shape: Shape,
    key: &'a [u8],
) -> Result<Ends<'a, S>, BoardFault>
    ensures { IfOk result (λ ends. ends.ring.key ≡ key.now) }
{
    let (ring, mut askers, mut takers) = Ring::<S>::open(alloc, shape, key)?;
    let Some(second_asker) = askers.pop() else {
        return Err(BoardFault::BadShape);
    };
    let Some(first_asker) = askers.pop() else {
        return Err(BoardFault::BadShape);
    };
    let Some(second_taker) = takers.pop() else {
        return Err(BoardFault::BadShape);
    };
    let Some(first_taker) = takers.pop() else {
        return Err(BoardFault::BadShape);
    };
    Ok(Ends {
        ring,
        first_asker,
        second_asker,
        first_taker,
        second_taker,
    })
}

/// Two workers take two numbers, of a window of two. One that is given back is taken again, with
/// the same query.
fn take_two<S: Solver, L: Ledger>(
    rt: &impl Abort,
    alloc: Global,
    blank: Blank,
) -> Result<(), BoardFault>
    requires { (blank.name ≡ L.name) × (blank.parts ≡ L.parts) × (0 < L.parts) }
{
    let mut steps = Steps::<L>::new(blank);
    let Ends {
        ring,
        first_asker: mut asker,
        first_taker: mut first,
        second_taker: mut second,
        ..
    } = open_ends::<S>(alloc, shape(2, 2, 2, 2), &KEY)?;
    let address = Query::address(0x10);
    let span = query_of(rt, QueryKind::Span(0x10, 0x20));
    assert_eq!(rt; asker.ask(&ring, span), Ok(0));
    assert_eq!(rt; asker.ask(&ring, address), Ok(1));
    assert_eq!(rt; asker.ask(&ring, span), Err(AskFault::Exhausted));
    let Some(taken) = first.take(&ring, &mut steps) else {
        panic!(rt; "the first number waits")
    };
    assert_eq!(rt; taken, (0, 0, span));
    let taken = second.take(&ring, &mut steps);
    assert_eq!(rt; taken, Some((0, 1, address)));
    assert_eq!(rt; first.give_back(&ring, &mut steps), (0, 0));
    let taken = first.take(&ring, &mut steps);
    assert_eq!(rt; taken, Some((0, 0, span)));
    Ok(())
}

#[test]
fn two_takers(rt: HostRuntime) -> Result<(), Fail> {
    take_two::<Echo, Brand>(&rt, rt.alloc(), Blank::new(1))?;
    Ok(())
}
