//! Writing what inputs picked, in blocks.

ghost use Rattle.std.specs.Prelude.{◌≡◌, ◌<◌, ◌≤◌, ◌++◌, true, false, [], length, OnOk, OnErr, vec_capacity};
ghost use Rattle.std.specs.List.{All};
ghost use Rattle.a2l_lines.specs.Ends.{WritesAll, WritesBeginning, Puts, PutsBeginning};
ghost use Rattle.a2l_lines.specs.Pieces.{pieces_of, WritesPicked, PicksBeginning};

use crate::output::write_all;
use crate::pieces::piece;
use crate::reply::Reply;
use crate::streams::{Failed, Sink};

/// How many pieces are looked at before they are copied. The inputs are in any order, and so their
/// pieces lie anywhere in memory: a processor that knows the lengths of the next ones fetches
/// several at a time, and else one after the other.
const GROUP: usize = 64;

/// Writes what is in a block, and empties it. After a failure a beginning of it was written.
fn flush<W: Sink>(writer: &mut W, block: &mut Vec<u8>) -> Result<(), Failed>
    ensures written { OnOk result (WritesAll (W.told writer.old) (W.told writer.new) block.old.items) }
    ensures emptied { OnOk result (block.new.items ≡ []) }
    ensures room { vec_capacity block.new ≡ vec_capacity block.old }
    ensures failed { OnErr result (W.failures writer.old < W.failures writer.new) }
    ensures beginning { OnErr result (WritesBeginning (W.told writer.old) (W.told writer.new) block.old.items) }
    ensures counted { W.failures writer.old ≤ W.failures writer.new }
{
    write_all(writer, block)?;
    block.clear();
    Ok(())
}

/// Adds a piece to a block that has room for it, and for so many bytes as are needed.
fn add(block: &mut Vec<u8>, piece: &[u8], needed: usize) -> bool
    ensures added { result ≡ true → block.new.items ≡ block.old.items ++ piece.now }
    ensures full { result ≡ false → block.new.items ≡ block.old.items }
{
    let room = block.capacity().saturating_sub(block.len());
    if room < piece.len().max(needed) {
        return false;
    }
    match block.extend_from_slice(piece) {
        Ok(()) => true,
        Err(_) => false,
    }
}

/// Puts a piece after what is in a block. Where there is no room for it, or not for so many bytes
/// as are needed, the block is written first, and then a piece that is longer than a block by
/// itself.
fn put<W: Sink>(
    writer: &mut W,
    block: &mut Vec<u8>,
    piece: &[u8],
    needed: usize,
) -> Result<(), Failed>
    ensures put { OnOk result (Puts (W.told writer.old) (W.told writer.new) block.old.items piece.now block.new.items) }
    ensures failed { OnErr result (W.failures writer.old < W.failures writer.new) }
    ensures beginning { OnErr result (PutsBeginning (W.told writer.old) (W.told writer.new) block.old.items piece.now) }
    ensures counted { W.failures writer.old ≤ W.failures writer.new }
{
    if add(block, piece, needed) {
        return Ok(());
    }
    flush(writer, block)?;
    if add(block, piece, 0) {
        return Ok(());
    }
    write_all(writer, piece)
}

/// How many bytes the next pieces have, from a multiple of `GROUP` on; elsewhere 0. No promise
/// rests on it.
fn bytes_ahead(replies: &[Reply], picks: &[usize], from: usize) -> usize
    requires within { All (λ pick. pick ≤ length replies.now) picks.now }
{
    let mut bytes = 0usize;
    if from % GROUP == 0 {
        for i in from..from.saturating_add(GROUP).min(picks.len()) {
            bytes = bytes.saturating_add(piece(replies, picks[i]).len());
        }
    }
    bytes
}

/// Writes the lines that inputs picked, in their order, through a block that is empty.
///
/// After a failure a beginning of them was written.
pub fn write_picked<W: Sink>(
    writer: &mut W,
    block: &mut Vec<u8>,
    replies: &[Reply],
    picks: &[usize],
) -> Result<(), Failed>
    requires empty { block.old.items ≡ [] }
    requires within { All (λ pick. pick ≤ length replies.now) picks.now }
    ensures written { OnOk result
        (WritesPicked (W.told writer.old) (W.told writer.new) (pieces_of replies.now) picks.now) }
    ensures failed { OnErr result (W.failures writer.old < W.failures writer.new) }
    ensures beginning { OnErr result
        (PicksBeginning (W.told writer.old) (W.told writer.new) (pieces_of replies.now) picks.now) }
    ensures counted { W.failures writer.old ≤ W.failures writer.new }
{
    for i in 0..picks.len() {
        let needed = bytes_ahead(replies, picks, i);
        put(writer, block, piece(replies, picks[i]), needed)?;
    }
    flush(writer, block)
}
