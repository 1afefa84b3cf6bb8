//! What the program reads from and writes to, so that it can be run on anything.

ghost use Rattle.std.specs.Prelude.{◌≡◌, ◌+◌, ◌<◌, ◌≤◌, List, Option, ℕ, length, Ok, IfOk};
ghost use Rattle.std.specs.Io.KnownBytes.{append_known, Consumes, IsAtEnd};
ghost use Rattle.a2l_lines.specs.Ends.{taken, failures_of, given};

use thiserror::Error;

/// A read or a write failed. It took and gave nothing.
#[derive(Clone, Copy, Debug, PartialEq, Eq, Error)]
#[error("a read or a write failed")]
pub struct Failed;

/// Where input comes from.
pub trait Source {
    /// How often a read failed.
    ghost failures: { Self → ℕ };

    /// The bytes that are still to come, where they are known.
    ghost left: { Self → Option (List ℕ) };

    /// Reads into the front of the buffer, and returns how many bytes. 0 is the end of input.
    fn read(&mut self, buffer: &mut [u8]) -> Result<usize, Failed>
        ensures within { IfOk result (λ n. n ≤ length buffer.old) }
        ensures left { IfOk result (λ n. Consumes (left self.old) (left self.new) (given n buffer.new)) }
        ensures end { result ≡ Ok 0 → 0 < length buffer.old → IsAtEnd (left self.new) }
        ensures failures { failures self.new ≡ failures self.old + failures_of result 0 };
}

/// Where output goes.
pub trait Sink {
    /// How often a write failed. One that takes no byte of a piece that isn't empty did.
    ghost failures: { Self → ℕ };

    /// The bytes that were taken, where they are known.
    ghost told: { Self → Option (List ℕ) };

    /// Takes bytes from the front of the piece, and returns how many.
    fn write(&mut self, piece: &[u8]) -> Result<usize, Failed>
        ensures within { IfOk result (λ n. n ≤ length piece.now) }
        ensures told { told self.new ≡ append_known (told self.old) (taken result piece.now) }
        ensures failures { failures self.new ≡ failures self.old + failures_of result (length piece.now) };
}
