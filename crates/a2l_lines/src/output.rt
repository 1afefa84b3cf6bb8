//! Writing a text whole.

ghost use Rattle.std.specs.Prelude.{◌≡◌, ◌<◌, ◌≤◌, OnOk, OnErr};
ghost use Rattle.std.specs.Io.KnownBytes.{append_known};
ghost use Rattle.a2l_lines.specs.Ends.{WritesBeginning};

use crate::streams::{Failed, Sink};

/// Writes all of a text.
///
/// A write that takes nothing of what is left is a failure. After a failure a beginning of the text
/// was written.
pub fn write_all<W: Sink>(writer: &mut W, text: &[u8]) -> Result<(), Failed>
    ensures written { OnOk result (W.told writer.new ≡ append_known (W.told writer.old) text.now) }
    ensures failed { OnErr result (W.failures writer.old < W.failures writer.new) }
    ensures beginning { WritesBeginning (W.told writer.old) (W.told writer.new) text.now }
    ensures counted { W.failures writer.old ≤ W.failures writer.new }
{
    let mut left = text;
    while !left.is_empty() {
        let count = writer.write(left)?;
        if count == 0 {
            return Err(Failed);
        }
        left = left.split_at(count).1;
    }
    Ok(())
}
