//! The numbers and the sentences of errors.

use std::alloc::{AllocError, Global};
use std::fmt::Display;
use std::process::Abort;
use std::test::Fail;
use ticket_board::{AskFault, BoardFault, PoolFault};
use ticket_core::{CoreFault, NewFault};

/// Asserts that the text of a fault is this.
fn says<F: Display + Drop>(
    rt: &impl Abort,
    alloc: Global,
    fault: F,
    text: &str,
) -> Result<(), AllocError> {
    assert_eq!(rt; format!(in alloc; "{fault}")?.as_str(), text);
    Ok(())
}

#[test]
fn core_faults(rt: HostRuntime) -> Result<(), Fail> {
    let table = [
        (CoreFault::Full, 1, "the window of this sender is full"),
        (CoreFault::Closed, 2, "this sender is closed"),
        (
            CoreFault::Exhausted,
            3,
            "this sender asked as many queries as it may",
        ),
        (
            CoreFault::NotAsked,
            4,
            "this number does not wait for a worker",
        ),
        (CoreFault::HandFull, 5, "this worker holds a query already"),
        (CoreFault::HandEmpty, 6, "this worker holds no query"),
        (CoreFault::NotReady, 7, "the next answer is not there yet"),
        (
            CoreFault::Ended,
            8,
            "this sender is closed and received everything",
        ),
        (CoreFault::Memory, 9, "out of memory"),
    ];
    for (fault, number, text) in table {
        assert_eq!(rt; fault.number(), number);
        says(&rt, rt.alloc(), fault, text)?;
    }
    Ok(())
}

#[test]
fn ask_faults(rt: HostRuntime) -> Result<(), Fail> {
    let table = [
        (AskFault::Full, 1, "the window of this sender is full"),
        (AskFault::Closed, 2, "this sender is closed"),
        (
            AskFault::Exhausted,
            3,
            "this sender asked as many queries as it may",
        ),
    ];
    for (fault, number, text) in table {
        assert_eq!(rt; fault.number(), number);
        says(&rt, rt.alloc(), fault, text)?;
    }
    Ok(())
}

/// A core, a board and a pool are refused for two reasons each.
#[test]
fn new_faults(rt: HostRuntime) -> Result<(), Fail> {
    let (core, board, pool) = (
        NewFault::BadShape,
        BoardFault::BadShape,
        PoolFault::BadShape,
    );
    assert_eq!(rt; [core.number(), board.number(), pool.number()], [1; 3]);
    says(
        &rt,
        rt.alloc(),
        core,
        "the shape of the core is not within its limits",
    )?;
    says(
        &rt,
        rt.alloc(),
        board,
        "the shape of the board is not within its limits",
    )?;
    says(
        &rt,
        rt.alloc(),
        pool,
        "the shape of the pool is not within its limits",
    )?;
    let (core, board, pool) = (NewFault::Memory, BoardFault::Memory, PoolFault::Memory);
    assert_eq!(rt; [core.number(), board.number(), pool.number()], [2; 3]);
    says(&rt, rt.alloc(), core, "out of memory")?;
    says(&rt, rt.alloc(), board, "out of memory")?;
    says(&rt, rt.alloc(), pool, "out of memory")?;
    Ok(())
}
