//! The frames of a range whose sound comes piece by piece.

ghost use Rattle.std.specs.Prelude.{◌≡◌, ◌⊎◌, ◌+◌, ◌-◌, ◌<◌, ◌≤◌, ◌^◌, [], IfErr, OnErr, OnOk, length};
ghost use Rattle.chunk_core.specs.Outlets.{outlet_failures};
ghost use Rattle.player_core.specs.Outlets.{OnOutlet};
ghost use Rattle.player_core.specs.PartView.{IsPartComplete, IsPartPlayer, IsSamePart, part_fed, part_rest};
ghost use Rattle.player_core.specs.Pieces.{IsInPlace, PutsDue, PutsPrefixOf, PutsRest, Takes, piece_bytes, rest_piece};
ghost use Rattle.sound_core.specs.Faults.{IsWritingFault, failed_writes};

use crate::parts::PartPlayer;
use crate::piece::Piece;
use chunk_core::Outlet;
use sound_core::{StreamFault, put};
use std::io::Write;

/// Writes the frames that are due after a piece of the sound and were not before. `came` bytes of the sound came before
/// the piece; bytes before the player's start aren't fed.
pub(crate) fn put_due<W: Write>(
    player: &mut PartPlayer<'_>,
    piece: Piece<'_>,
    came: usize,
    frames: &mut Vec<u8>,
    outlet: &mut Outlet<W>,
) -> Result<(), StreamFault>
    requires player { IsPartPlayer player.old }
    requires place { IsInPlace player.old came piece }
    requires few { part_fed player.old + length (rest_piece player.old came (piece_bytes piece)) ≤ (part_rest player.old).size }
    requires ready { outlet_failures outlet.old < 2 ^ 64 - 1 }
    ensures player { OnOk result (IsPartPlayer player.new) }
    ensures same { OnOk result (IsSamePart player.old player.new) }
    ensures ok { OnOk result (OnOutlet W.contents outlet.old outlet.new
        (PutsDue player.old player.new (rest_piece player.old came (piece_bytes piece.entry)))) }
    ensures prefix { OnErr result (OnOutlet W.contents outlet.old outlet.new
        (PutsPrefixOf player.old (rest_piece player.old came (piece_bytes piece.entry)))) }
    ensures fault { IfErr result IsWritingFault }
    ensures failures { outlet_failures outlet.new ≡ outlet_failures outlet.old + failed_writes result }
{
    let rest = rest_of_piece(player, piece, came);
    frames.clear();
    player.feed_piece(rest, frames)?;
    put(outlet, frames.as_slice())
}

// What of a piece isn't before the player's start.
fn rest_of_piece<'b>(player: &PartPlayer<'_>, piece: Piece<'b>, came: usize) -> Piece<'b>
    requires { IsInPlace player.now came piece }
    ensures bytes { piece_bytes result ≡ rest_piece player.now came (piece_bytes piece.entry) }
    ensures takes { Takes player.now.player result }
{
    match piece {
        Piece::Same(bytes) => {
            let skipped = player.start().saturating_sub(came).min(bytes.len());
            let (_, rest) = bytes.split_at(skipped);
            Piece::Same(rest)
        }
        Piece::Blocks(_) => piece,
    }
}

/// Writes the rest of the frames: none if all were written.
pub(crate) fn put_rest<W: Write>(
    player: &mut PartPlayer<'_>,
    frames: &mut Vec<u8>,
    outlet: &mut Outlet<W>,
) -> Result<(), StreamFault>
    requires player { IsPartPlayer player.old }
    requires all { (part_fed player.old ≡ (part_rest player.old).size) ⊎ IsPartComplete player.old }
    requires ready { outlet_failures outlet.old < 2 ^ 64 - 1 }
    ensures ok { OnOk result (OnOutlet W.contents outlet.old outlet.new (PutsRest player.old)) }
    ensures prefix { OnErr result (OnOutlet W.contents outlet.old outlet.new (PutsPrefixOf player.old [])) }
    ensures fault { IfErr result IsWritingFault }
    ensures failures { outlet_failures outlet.new ≡ outlet_failures outlet.old + failed_writes result }
{
    if player.is_complete() {
        return Ok(());
    }
    frames.clear();
    player.finish(frames)?;
    put(outlet, frames.as_slice())
}
