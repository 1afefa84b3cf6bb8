//! Which shapes a pool takes.

ghost use Rattle.std.specs.Prelude.{IsTrue, ◌↔◌};
ghost use Rattle.ticket_board.specs.Pool.{PoolFits};

use ticket_core::Shape;

/// Whether the shape is within its limits, and no sender has to ask more than it may, where the
/// senders share `queries` queries.
pub fn pool_fits(shape: &Shape, queries: usize) -> bool
    ensures { IsTrue result ↔ PoolFits shape.now queries }
{
    shape.fits() && queries.div_ceil(shape.senders) as u64 <= shape.most
}
