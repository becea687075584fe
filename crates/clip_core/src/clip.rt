//! Clips.

use crate::gain::Gains;

/// A part of a take, and where it is heard in the mix. Places and lengths are in bits of a channel.
#[derive(Drop)]
pub struct Clip {
    /// The number of the take, counted from 0.
    pub take: usize,
    /// The number of the decoder, counted from 0.
    pub decoder: usize,
    /// The bit of the take at the clip's first place, at most `2^36`.
    pub start: usize,
    /// The clip's first place in the mix.
    pub at: usize,
    /// How many places it has, at least 1; it ends at most at `2^36`.
    pub length: usize,
    /// How loud it is.
    pub gains: Gains,
}
