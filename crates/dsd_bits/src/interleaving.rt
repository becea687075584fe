//! How the sound bytes of several channels are interleaved.

use crate::blocks::BitOrder;

/// How the sound bytes of several channels are interleaved.
#[derive(Clone, Copy, PartialEq, Eq)]
pub enum Interleaving {
    /// As in DSDIFF 1.5: frames of one byte of each channel in turn, the most significant bit the earliest.
    Bytes,
    /// As in DSF 1.01: blocks of 4096 bytes of each channel in turn, the bits of a byte in this order.
    Blocks(BitOrder),
}

impl Interleaving {
    ghost use Rattle.std.specs.Prelude.{◌≡◌};
    ghost use Rattle.dsd_bits.specs.Sounds.{has_blocks};

    /// Whether the channels are in blocks.
    pub fn has_blocks(self) -> bool
        ensures { result ≡ has_blocks self }
    {
        match self {
            Interleaving::Bytes => false,
            Interleaving::Blocks(_) => true,
        }
    }
}
