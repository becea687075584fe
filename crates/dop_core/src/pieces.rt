//! A file piece by piece.

ghost use Rattle.std.specs.Prelude.{◌≡◌, ◌≤◌, IfErr, IfOk, OnErr, OnOk, length};
ghost use Rattle.chunk_core.specs.Outlets.{Puts, PutsPrefix};
ghost use Rattle.dop_core.specs.Pieces.{HoldsMore, IsOutside, PieceIs};

use crate::stop::DopStop;
use chunk_core::{Inlet, Outlet};
use std::io::{Read, Write};

// How many bytes are read at a time where they are held.
const MOST_BYTES: usize = 65_536;

/// Reads the next `size` bytes, or as many as there are, in place of what the piece had. It answers whether all are
/// there.
///
/// Refusals: `ReadFailed`, also if the inlet has counted as many failures as it can; `Memory`.
pub(crate) fn read_piece<R: Read>(
    inlet: &mut Inlet<R>,
    piece: &mut Vec<u8>,
    size: usize,
) -> Result<bool, DopStop>
    ensures read { IfOk result (PieceIs R.remaining inlet.old inlet.new piece.new.items size) }
    ensures fault { IfErr result IsOutside }
{
    if inlet.failures() == u64::MAX {
        return Err(DopStop::ReadFailed);
    }
    piece.resize(size, 0)?;
    match inlet.fill(piece.as_mut_slice()) {
        Ok(count) => {
            piece.truncate(count);
            Ok(count == size)
        }
        Err(_) => Err(DopStop::ReadFailed),
    }
}

/// Reads on until `held` has `wanted` bytes, or the file ends. It answers whether it has them.
///
/// Refusals: as for [`read_piece`].
pub(crate) fn hold_until<R: Read>(
    inlet: &mut Inlet<R>,
    piece: &mut Vec<u8>,
    held: &mut Vec<u8>,
    wanted: usize,
) -> Result<bool, DopStop>
    requires { length held.old.items ≤ wanted }
    ensures read { IfOk result (HoldsMore R.remaining inlet.old inlet.new held.old.items held.new.items wanted) }
    ensures fault { IfErr result IsOutside }
{
    while held.len() < wanted {
        let size = (wanted - held.len()).min(MOST_BYTES);
        let is_whole = read_piece(inlet, piece, size)?;
        held.extend_from_slice(piece)?;
        if !is_whole {
            return Ok(false);
        }
    }
    Ok(true)
}

/// Writes bytes.
///
/// Refusal: `WriteFailed`, also if the outlet has counted as many failures as it can.
pub(crate) fn put_piece<W: Write>(outlet: &mut Outlet<W>, bytes: &[u8]) -> Result<(), DopStop>
    ensures ok { OnOk result (Puts W.contents outlet.old outlet.new bytes.now) }
    ensures err { OnErr result (PutsPrefix W.contents outlet.old outlet.new bytes.now) }
{
    if outlet.failures() == u64::MAX {
        return Err(DopStop::WriteFailed);
    }
    match outlet.put_all(bytes) {
        Ok(()) => Ok(()),
        Err(_) => Err(DopStop::WriteFailed),
    }
}
