//! The next bytes of a sound, as its file has them.

use crate::groups::WholeGroups;
use dsd_bits::{BitOrder, Interleaving};
use interleave_core::Segment;

/// The next bytes of a sound.
#[derive(Clone, Copy)]
pub(crate) enum Piece<'b> {
    /// They are interleaved as the sound is.
    Same(&'b [u8]),
    /// They are in blocks, and the sound is interleaved byte by byte.
    Blocks(BlockPiece<'b>),
}

/// Whole bytes of each channel in groups of blocks (DSF 1.01).
#[derive(Clone, Copy)]
pub(crate) struct BlockPiece<'b> {
    /// The sound bytes.
    pub(crate) bytes: &'b [u8],
    /// How many channels they have, and how many bits of each.
    pub(crate) stretch: Segment,
    /// The order of the bits in a byte.
    pub(crate) order: BitOrder,
}

impl<'b> Piece<'b> {
    ghost use Rattle.std.specs.Prelude.{◌≡◌, length};
    ghost use Rattle.player_core.specs.Pieces.{piece_bytes};

    /// How many bytes of the sound they are.
    pub(crate) fn len(&self) -> usize
        ensures { result ≡ length (piece_bytes self.now) }
    {
        match *self {
            Piece::Same(bytes) => bytes.len(),
            Piece::Blocks(blocks) => blocks.size(),
        }
    }
}

impl<'b> BlockPiece<'b> {
    ghost use Rattle.std.specs.Prelude.{◌≡◌, ◌*◌, ◌/◌};
    ghost use Rattle.player_core.specs.Pieces as Pieces;

    /// How many bytes they are if a byte of each channel comes in turn.
    pub(crate) fn size(&self) -> usize
        ensures { result ≡ self.now.stretch.count / 8 * self.now.stretch.channels }
    {
        self.stretch.count / 8 * self.stretch.channels
    }

    /// All their bytes of each channel.
    pub(crate) fn groups(&self) -> WholeGroups<'b>
        ensures { result ≡ Pieces.block_groups self.now }
    {
        WholeGroups {
            bytes: self.bytes,
            channels: self.stretch.channels,
            interleaving: Interleaving::Blocks(self.order),
            number: self.stretch.count / 8,
        }
    }
}
