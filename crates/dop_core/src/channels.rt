//! The bits of DoP samples.

ghost use Rattle.std.specs.Prelude.{◌≡◌, ◌≤◌, ◌<◌, ◌+◌, ◌-◌, ◌*◌, ◌/◌, ℕ, IfOk, length, slice_index};
ghost use Rattle.std.specs.Int.{div_ceil};
ghost use Rattle.dsd_bits.specs.Limits.{most_bits};
ghost use Rattle.dop_core.specs.Reading as Reading;
ghost use Rattle.dop_core.specs.Reading.{dop_byte};

use dsd_bits::{Bits, BitsFault};
use std::alloc::{AllocError, Global};

/// The first bits of every channel.
pub(crate) fn dop_channels(
    alloc: Global,
    sound: &[u8],
    channels: usize,
    frames: usize,
    count: usize,
) -> Result<Vec<Bits>, AllocError>
    requires size { 3 * (frames * channels) ≤ length sound.now }
    requires count { count ≤ 16 * frames }
    requires in_limit { count ≤ most_bits }
    ensures { IfOk result (λ made. made.items ≡ Reading.dop_channels channels sound.now count) }
{
    let mut made = Vec::new(alloc);
    for c in 0..channels {
        made.push(dop_channel(alloc, sound, channels, c, count)?)?;
    }
    Ok(made)
}

// The first bits of a channel.
fn dop_channel(
    alloc: Global,
    sound: &[u8],
    channels: usize,
    c: usize,
    count: usize,
) -> Result<Bits, AllocError>
    requires channel { c < channels }
    requires size { 3 * (div_ceil count 16 * channels) ≤ length sound.now }
    requires in_limit { count ≤ most_bits }
    ensures { IfOk result (λ bits. bits ≡ Reading.dop_channel channels sound.now count c) }
{
    let own = dop_bytes(alloc, sound, channels, c, count.div_ceil(8))?;
    match Bits::from_packed(alloc, &own, count) {
        Ok(bits) => Ok(bits),
        Err(BitsFault::Memory) => Err(AllocError),
        Err(BitsFault::TooFewBytes) => unreachable!(),
    }
}

// The first bytes of a channel.
fn dop_bytes(
    alloc: Global,
    sound: &[u8],
    channels: usize,
    c: usize,
    size: usize,
) -> Result<Vec<u8>, AllocError>
    requires channel { c < channels }
    requires size { 3 * ((size + 1) / 2 * channels) ≤ length sound.now }
    ensures bytes { IfOk result (λ made. made.items ≡ Reading.dop_bytes channels sound.now c size) }
    ensures size { IfOk result (λ made. length made.items ≡ size) }
{
    let mut own = Vec::new(alloc);
    own.resize(size, 0)?;
    pick(own.as_mut_slice(), sound, channels, c);
    Ok(own)
}

// Writes the bytes of a channel.
fn pick(to: &mut [u8], sound: &[u8], channels: usize, c: usize)
    requires channel { c < channels }
    requires size { 3 * ((length to.old + 1) / 2 * channels) ≤ length sound.now }
    ensures { (p : ℕ) → p < length to.old → slice_index to.new p ≡ dop_byte channels sound.now c p }
{
    for p in 0..to.len() {
        to[p] = sound[3 * (p / 2 * channels + c) + (1 - p % 2)];
    }
}
