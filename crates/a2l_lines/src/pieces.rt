//! The lines that an input picks of the replies to all queries.

ghost use Rattle.std.specs.Prelude.{◌≡◌, ◌≤◌, [], length, slice_index_or};
ghost use Rattle.a2l_lines.specs.Pieces.{pieces_of};

use crate::reply::Reply;

/// The line of a bad address.
pub const BAD_ADDRESS: &[u8] = b"!bad address\n";

/// The lines that an input picks: 0 is the line of a bad address, and k + 1 the reply to the query
/// at k.
pub fn piece(replies: &[Reply], pick: usize) -> &[u8]
    requires within { pick ≤ length replies.now }
    ensures { result.now ≡ slice_index_or (pieces_of replies.now) pick [] }
{
    if pick == 0 {
        return BAD_ADDRESS;
    }
    &replies[pick - 1].lines
}
