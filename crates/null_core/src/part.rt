//! Clips as a channel has them.

ghost use Rattle.std.specs.Prelude.{◌+◌, ◌^◌, ◌≤◌, length};
ghost use Rattle.clip_core.specs.Gains.{ArePoints};

use clip_core::Point;
use dsd_bits::Bits;
use heard_core::Decoder;

/// A clip as a channel has it. Places and lengths are in bits.
#[derive(Clone, Copy)]
pub struct Part<'a> {
    /// The number of its take.
    pub take: usize,
    /// How many bits the take is ahead of the mix: the bit at place `m` of the mix is bit `m + ahead` of the take.
    pub ahead: i64,
    /// Its first place in the mix.
    pub at: usize,
    /// How many places it has.
    pub size: usize,
    /// The points of its gain; there are none if it has a gain of 1.
    pub points: &'a [Point],
    /// The low-pass that decodes it.
    pub decoder: &'a Decoder,
    /// Bits of its take, all those that its sound needs.
    pub bits: &'a Bits,
    /// Which of these is at its first place.
    pub start: usize,
    pub ghost end: { at + size ≤ 2 ^ 36 },
    pub ghost reach: { start + size ≤ length bits.now },
    pub ghost fit: { ArePoints points.now },
}
