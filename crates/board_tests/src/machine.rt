//! Calls of a core, one after the other.

use crate::core_desk::CoreDesk;
use crate::solver::{Echo, KEY};
use std::process::Abort;
use std::test::Fail;
use ticket_core::QueryKind::Address;
use ticket_core::{CoreFault, NewFault, Query, Shape, Solver};

/// A call by the first sender, or by a worker, and what it returns.
#[derive(Clone, Copy)]
enum Call {
    /// An address.
    Ask(u64, Result<u64, CoreFault>),
    /// By a worker, of a number.
    Take(usize, u64, Result<(), CoreFault>),
    Finish(usize, Result<(usize, u64), CoreFault>),
    GiveBack(usize, Result<(usize, u64), CoreFault>),
    Collect(Result<u64, CoreFault>),
    Close,
}

/// Makes the call at an index of a table. It returns what it should.
fn make<S: Solver + Drop>(rt: &impl Abort, desk: &mut CoreDesk<S>, i: usize, call: Call) {
    let Shape {
        senders,
        workers,
        ..
    } = desk.shape;
    assert!(rt; senders > 0);
    match call {
        Call::Ask(a, wanted) => {
            assert_eq!(rt; desk.ask(0, Query::address(a)), wanted, "call {i}");
        }
        Call::Take(worker, number, wanted) => {
            assert!(rt; worker < workers);
            assert_eq!(rt; desk.take(worker, 0, number), wanted, "call {i}");
        }
        Call::Finish(worker, wanted) => {
            assert!(rt; worker < workers);
            assert_eq!(rt; desk.finish(worker), wanted, "call {i}");
        }
        Call::GiveBack(worker, wanted) => {
            assert!(rt; worker < workers);
            assert_eq!(rt; desk.give_back(worker), wanted, "call {i}");
        }
        Call::Collect(wanted) => assert_eq!(rt; desk.collect(0), wanted, "call {i}"),
        Call::Close => desk.close(0),
    }
}

fn make_all<S: Solver + Drop>(rt: &impl Abort, desk: &mut CoreDesk<S>, calls: &[Call]) {
    for (i, call) in calls.iter().enumerate() {
        make(rt, desk, i, *call);
    }
}

const SMALL: Shape = Shape {
    senders: 1,
    workers: 2,
    window: 1,
    most: 2,
};

/// `Closed` comes before `Exhausted`, and that before `Full`.
const ONE_RUN: [Call; 22] = [
    Call::Collect(Err(CoreFault::NotReady)),
    Call::Ask(5, Ok(0)),
    Call::Ask(6, Err(CoreFault::Full)),
    Call::Take(0, 1, Err(CoreFault::NotAsked)),
    Call::Take(0, 0, Ok(())),
    Call::Take(0, 0, Err(CoreFault::HandFull)),
    Call::Take(1, 0, Err(CoreFault::NotAsked)),
    Call::Finish(1, Err(CoreFault::HandEmpty)),
    Call::GiveBack(0, Ok((0, 0))),
    Call::Take(1, 0, Ok(())),
    Call::Finish(1, Ok((0, 0))),
    Call::Collect(Ok(0)),
    Call::Ask(6, Ok(1)),
    Call::Ask(7, Err(CoreFault::Exhausted)),
    Call::Close,
    Call::Ask(7, Err(CoreFault::Closed)),
    Call::Collect(Err(CoreFault::NotReady)),
    Call::Take(0, 1, Ok(())),
    Call::Finish(0, Ok((0, 1))),
    Call::Collect(Ok(1)),
    Call::Collect(Err(CoreFault::Ended)),
    Call::GiveBack(0, Err(CoreFault::HandEmpty)),
];

/// The answers are remainders by 2.
#[test]
fn one_number_at_a_time(rt: HostRuntime) -> Result<(), Fail> {
    let mut desk = CoreDesk::of_parities(rt.alloc(), SMALL, &KEY)?;
    make_all(&rt, &mut desk, &ONE_RUN);
    assert!(rt; desk.shape.senders > 0);
    assert_eq!(rt;
        desk.asked(0),
        [Query::address(5), Query::address(6)].as_slice()
    );
    assert_eq!(rt; desk.received(0), [1, 0].as_slice());
    Ok(())
}

/// Asks an address that is the number too, once more where an allocation was refused.
fn ask_at_last(rt: &impl Abort, desk: &mut CoreDesk<Echo>, a: usize) {
    assert!(rt; desk.shape.senders > 0);
    let query = Query::address(a as u64);
    let asked = desk.ask(0, query);
    if asked == Err(CoreFault::Memory) {
        assert_eq!(rt; desk.asked(0).len(), a);
        assert_eq!(rt; desk.ask(0, query), Ok(a as u64));
    } else {
        assert_eq!(rt; asked, Ok(a as u64));
    }
}

/// One sender asks and receives two hundred queries. Where an allocation is refused, nothing
/// changes, and the same call with memory succeeds. So this test passes under `rt try --test
/// --fail-alloc N` for each N.
#[test]
fn each_allocation_refused(rt: HostRuntime) -> Result<(), Fail> {
    let shape = Shape {
        senders: 1,
        workers: 1,
        window: 200,
        most: 200,
    };
    let mut desk = match CoreDesk::new(rt.alloc(), shape, &KEY) {
        Err(NewFault::Memory) => CoreDesk::new(rt.alloc(), shape, &KEY)?,
        made => made?,
    };
    for a in 0..200 {
        ask_at_last(&rt, &mut desk, a);
    }
    for number in 0..200 {
        make_all(
            &rt,
            &mut desk,
            &[
                Call::Take(0, number, Ok(())),
                Call::Finish(0, Ok((0, number))),
                Call::Collect(Ok(number)),
            ],
        );
    }
    assert!(rt; desk.shape.senders > 0);
    for (a, answer) in desk.received(0).iter().enumerate() {
        assert_eq!(rt; *answer, Address(a as u64));
    }
    Ok(())
}
