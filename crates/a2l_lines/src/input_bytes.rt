//! Reading an input to its end.

ghost use Rattle.std.specs.Prelude.{◌≡◌, ◌≢◌, ◌<◌, ◌≤◌, length, Ok, Err, IfOk, IfErr, IsErrOf};
ghost use Rattle.std.specs.Io.KnownBytes.{Consumes, IsAtEnd};
ghost use Rattle.a2l_lines.specs.Ends.{given};
ghost use Rattle.a2l_lines.specs.Input.{IsInput};

use crate::fault::RunFault;
use crate::streams::{Failed, Source};
use std::alloc::Global;

/// How many bytes are asked for at a time.
const PIECE: usize = 65536;

/// Reads into the front of a piece, and returns how many bytes. 0 is the end of input.
fn read_piece<R: Source>(reader: &mut R, piece: &mut [u8]) -> Result<usize, RunFault>
    ensures within { IfOk result (λ n. n ≤ length piece.old) }
    ensures len { length piece.new ≡ length piece.old }
    ensures left { IfOk result (λ n. Consumes (R.left reader.old) (R.left reader.new) (given n piece.new)) }
    ensures end { result ≡ Ok 0 → 0 < length piece.old → IsAtEnd (R.left reader.new) }
    ensures counted { R.failures reader.old ≤ R.failures reader.new }
    ensures fault { IfErr result (λ fault. (fault ≡ RunFault.Read) × (R.failures reader.old < R.failures reader.new)) }
{
    match reader.read(piece) {
        Ok(count) => Ok(count),
        Err(Failed) => Err(RunFault::Read),
    }
}

/// All bytes that are still to come, piece by piece.
fn read_pieces<R: Source>(
    alloc: Global,
    reader: &mut R,
    piece: &mut [u8],
) -> Result<Vec<u8>, RunFault>
    requires { 0 < length piece.old }
    ensures whole { IfOk result (λ bytes. IsInput (R.left reader.old) bytes.items) }
    ensures read { IsErrOf result RunFault.Read → R.failures reader.old < R.failures reader.new }
    ensures write { result ≢ Err RunFault.Write }
{
    let mut bytes = Vec::new(alloc);
    loop {
        let count = read_piece(reader, piece)?;
        if count == 0 {
            return Ok(bytes);
        }
        bytes.extend_from_slice(piece.split_at(count).0)?;
    }
}

/// All bytes that are still to come, up to the end of input.
pub fn read_all<R: Source>(alloc: Global, reader: &mut R) -> Result<Vec<u8>, RunFault>
    ensures whole { IfOk result (λ bytes. IsInput (R.left reader.old) bytes.items) }
    ensures read { IsErrOf result RunFault.Read → R.failures reader.old < R.failures reader.new }
    ensures write { result ≢ Err RunFault.Write }
{
    let mut piece = vec![in alloc; 0u8; PIECE]?;
    let bytes = read_pieces(alloc, reader, &mut piece)?;
    Ok(bytes)
}
