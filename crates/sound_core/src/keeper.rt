//! What is kept of a sound whose bytes come a few groups of blocks at a time.

ghost use Rattle.std.specs.Prelude.{◌≡◌, ◌+◌, ◌-◌, ◌<◌, ◌≤◌, ◌++◌, [], Bool, List, ℕ, OnOk, IfOk, length, replicate, slice_range, true};
ghost use Rattle.dsd_bits.specs.Limits.{most_bits};
ghost use Rattle.sound_core.specs.Stretches.{AreApart, AreGrown, AreRoomy, IsGrown, IsRoomy, items_of};

use crate::fault::StreamFault;
use crate::part::SoundPart;
use crate::sink::SoundSink;
use dsd_bits::{BitRange, Bits, Sound};
use interleave_core::unlace;
use std::alloc::{AllocError, Global};

/// What is kept of a sound: the bits of each channel in some ranges.
#[derive(Drop)]
pub struct Keeper<'a> {
    /// What is kept of it.
    pub ranges: &'a [BitRange],
    /// For each range the bits that came so far.
    pub stretches: Vec<Vec<Bits>>,
}

impl<'a> Keeper<'a> {
    ghost use Rattle.std.specs.Prelude.{◌≡◌};

    /// A keeper of these ranges, before any sound.
    pub fn new(alloc: Global, ranges: &'a [BitRange]) -> Keeper<'a>
        ensures { result.ranges.now ≡ ranges.now }
    {
        Keeper {
            ranges,
            stretches: Vec::new(alloc),
        }
    }
}

impl<'a> SoundSink for Keeper<'a> {
    ghost use Rattle.std.specs.Prelude.{◌≡◌, ⊤};
    ghost use Rattle.sound_core.specs.Keepers.{IsKeeping};
    ghost use Rattle.sound_core.specs.declared.fault.StreamFault.TheVariants.{Memory};

    ghost ready = { λ k. ⊤ };

    ghost has = { λ first k s done bytes. IsKeeping first k s done bytes };

    ghost refused = { λ first k s came f. f ≡ Memory };

    fn begin(&mut self, alloc: Global, sound: Sound) -> Result<(), StreamFault> {
        self.stretches = no_stretches(alloc, self.ranges.len(), sound.channels)?;
        Ok(())
    }

    fn take(&mut self, alloc: Global, part: SoundPart, bytes: &[u8]) -> Result<(), StreamFault> {
        if !are_apart(self.ranges, part.done, part.done + part.bits) {
            let channels = unlace(alloc, bytes, part.stretch(), part.sound.interleaving)?;
            grow_all(&mut self.stretches, self.ranges, &channels, part.done)?;
        }
        Ok(())
    }
}

// Whether no range has any bit between these places.
fn are_apart(ranges: &[BitRange], start: usize, stop: usize) -> bool
    ensures { result ≡ true → AreApart ranges.now start stop }
{
    for range in ranges {
        if range.start < stop && start < range.stop {
            return false;
        }
    }
    true
}

// Appends to each stretch what these channels, which follow `done` bits, have in its range.
fn grow_all(
    stretches: &mut [Vec<Bits>],
    ranges: &[BitRange],
    channels: &[Bits],
    done: usize,
) -> Result<(), AllocError>
    requires number { length stretches.old ≡ length ranges.now }
    requires room { AreRoomy channels.now (items_of stretches.old) }
    ensures { OnOk result (AreGrown ranges.now channels.now done (items_of stretches.old) (items_of stretches.new)) }
{
    for (i, stretch) in stretches.iter_mut().enumerate() {
        grow(stretch, ranges[i], channels, done)?;
    }
    Ok(())
}

// Appends to a stretch what these channels, which follow `done` bits, have in its range.
fn grow(
    stretch: &mut Vec<Bits>,
    range: BitRange,
    channels: &[Bits],
    done: usize,
) -> Result<(), AllocError>
    requires room { IsRoomy channels.now stretch.old.items }
    ensures { OnOk result (IsGrown range channels.now done stretch.old.items stretch.new.items) }
{
    let start = range.start.saturating_sub(done);
    let stop = range.stop.saturating_sub(done);
    for (c, bits) in stretch.iter_mut().enumerate() {
        append_part(bits, &channels[c], start, stop)?;
    }
    Ok(())
}

// Appends the bits of a channel from one place to another, as far as it reaches.
fn append_part(bits: &mut Bits, channel: &Bits, start: usize, stop: usize) -> Result<(), AllocError>
    requires { length bits.old + length channel.now ≤ most_bits }
    ensures { OnOk result (bits.new ≡ bits.old ++ slice_range channel.now start stop) }
{
    let end = stop.min(channel.len());
    if start < end {
        return bits.push_range(channel, start, end);
    }
    Ok(())
}

// An empty stretch for each range.
fn no_stretches(alloc: Global, number: usize, channels: usize) -> Result<Vec<Vec<Bits>>, AllocError>
    ensures { IfOk result (λ made. items_of made.items ≡ replicate number (replicate channels [])) }
{
    let mut made = Vec::new(alloc);
    for _range in 0..number {
        let stretch = no_stretch(alloc, channels)?;
        made.push(stretch)?;
    }
    Ok(made)
}

// Empty channels.
fn no_stretch(alloc: Global, channels: usize) -> Result<Vec<Bits>, AllocError>
    ensures { IfOk result (λ made. made.items ≡ replicate channels []) }
{
    let mut made = Vec::new(alloc);
    for _channel in 0..channels {
        made.push(Bits::new(alloc))?;
    }
    Ok(made)
}
