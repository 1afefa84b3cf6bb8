//! Shapes at their limits and past them.

use crate::gates::Open;
use crate::pool::answers;
use crate::solver::{Echo, KEY};
use ticket_board::{BoardFault, PoolFault, open};
use ticket_core::{Core, NewFault, Shape};

/// A shape of so many senders and workers, with this window, and so many queries a sender at most.
pub fn shape(senders: usize, workers: usize, window: usize, most: u64) -> Shape {
    Shape {
        senders,
        workers,
        window,
        most,
    }
}

/// A core, a board and a pool each take the shapes that fit, and refuse the others.
#[test]
fn shapes(rt: HostRuntime) {
    let most = 1 << 60;
    let table = [
        (shape(1, 1, 1, 1), true),
        (shape(64, 64, 1024, most), true),
        (shape(0, 1, 1, 1), false),
        (shape(65, 1, 1, 1), false),
        (shape(1, 0, 1, 1), false),
        (shape(1, 65, 1, 1), false),
        (shape(1, 1, 0, 1), false),
        (shape(1, 1, 1025, 1), false),
        (shape(1, 1, 1, 0), false),
        (shape(1, 1, 1, most + 1), false),
    ];
    for (shape, fits) in table {
        assert_eq!(rt; shape.fits(), fits, "{shape:?}");
        let core = Core::<Echo>::new(rt.alloc(), shape, &KEY);
        assert_eq!(rt;
            core.err(),
            (!fits).then_some(NewFault::BadShape),
            "{shape:?}"
        );
        let board = open::<Echo>(rt.alloc(), shape, &KEY);
        assert_eq!(rt;
            board.err(),
            (!fits).then_some(BoardFault::BadShape),
            "{shape:?}"
        );
        let pool = answers(&rt, rt.alloc(), shape, &[], &Open);
        assert_eq!(rt;
            pool.err(),
            (!fits).then_some(PoolFault::BadShape),
            "{shape:?}"
        );
    }
}
