//! Puts bytes in pieces.
ghost use Rattle.std.specs.Prelude.{◌≡◌, ◌≤◌, OnOk, IfErr};
ghost use Rattle.spf_edge.specs.Faults.{Rose};
ghost use Rattle.spf_edge_pieces.specs.Pieces.{IsPutInPieces, IsPutFault};

use spf_edge::{PutError, Sink};

/// How many bytes are put at once.
const PIECE: usize = 4096;

/// Puts bytes in pieces of 4,096 bytes, of which only the last may be shorter, and none is empty.
///
/// # Errors
///
/// That of the first put that failed; nothing is put after it.
pub fn put_pieces<S: Sink>(sink: &mut S, bytes: &[u8]) -> Result<(), PutError>
    ensures put { IsPutInPieces bytes.now result (S.state sink.old) (S.state sink.new) }
    ensures failed { IfErr result
        (IsPutFault (Rose (S.state sink.old).faults (S.state sink.new).faults)) }
    ensures later { (S.state sink.old).faults ≤ (S.state sink.new).faults }
{
    let mut rest = bytes;
    'pieces: while !rest.is_empty() {
        let (piece, others) = rest.split_at(rest.len().min(PIECE));
        sink.put(piece)?;
        rest = others;
    }
    Ok(())
}
