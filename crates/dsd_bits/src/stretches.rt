//! Parts of the channels of a recording, and channels without bits.

ghost use Rattle.std.specs.Prelude.{◌≡◌, [], IfOk, map, replicate, slice_range};
ghost use Rattle.dsd_bits.specs.Stretches as specs;

use crate::bits::Bits;
use std::alloc::{AllocError, Global};

/// A range of bits of each channel, from the first to the place after the last.
#[derive(Clone, Copy)]
pub struct BitRange {
    /// The place of the first bit.
    pub start: usize,
    /// The place after the last bit. The range is empty if it is not above `start`.
    pub stop: usize,
}

/// For each range in turn the bits that each channel has there, as far as it reaches. Err is out of memory.
pub fn stretches_of(
    alloc: Global,
    channels: &[Bits],
    ranges: &[BitRange],
) -> Result<Vec<Vec<Bits>>, AllocError>
    ensures { IfOk result (λ made. map (λ stretch. stretch.items) made.items
        ≡ specs.stretches_of channels.now ranges.now) }
{
    let mut made = Vec::new(alloc);
    for k in 0..ranges.len() {
        made.push(stretch_of(alloc, channels, ranges[k])?)?;
    }
    Ok(made)
}

// The bits that each channel has in a range.
fn stretch_of(alloc: Global, channels: &[Bits], range: BitRange) -> Result<Vec<Bits>, AllocError>
    ensures { IfOk result (λ made. made.items ≡ specs.stretch_of channels.now range) }
{
    let mut made = Vec::new(alloc);
    for c in 0..channels.len() {
        made.push(cut_out(alloc, &channels[c], range)?)?;
    }
    Ok(made)
}

// The bits that a channel has in a range.
fn cut_out(alloc: Global, channel: &Bits, range: BitRange) -> Result<Bits, AllocError>
    ensures { IfOk result (λ made. made ≡ slice_range channel.now range.start range.stop) }
{
    let stop = range.stop.min(channel.len());
    let start = range.start.min(stop);
    let mut made = Bits::new(alloc);
    made.push_range(channel, start, stop)?;
    Ok(made)
}

/// As many channels without bits as asked for. Err is out of memory.
pub fn silent_channels(alloc: Global, number: usize) -> Result<Vec<Bits>, AllocError>
    ensures { IfOk result (λ made. made.items ≡ replicate number []) }
{
    let mut made = Vec::new(alloc);
    for c in 0..number {
        made.push(Bits::new(alloc))?;
    }
    Ok(made)
}
