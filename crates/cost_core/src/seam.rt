//! What a bridge joins.

use dsd_bits::Bits;

/// What a bridge joins: the bits of a cue's take, and those of the next cue's.
#[derive(Clone, Copy)]
pub struct Seam<'a> {
    /// The bits in which the cue before the bridge ends.
    pub own: &'a Bits,
    /// The place in them where it ends.
    pub stop: usize,
    /// The bits in which the cue after the bridge begins.
    pub next: &'a Bits,
    /// The place in them where it begins.
    pub start: usize,
}
