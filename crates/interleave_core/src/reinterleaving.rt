//! Re-interleaves sound bytes.

ghost use Rattle.std.specs.Prelude.{◌≡◌, ◌≤◌, ◌*◌, ◌/◌, ◌%◌, ◌++◌, IfOk, OnErr, OnOk, length};
ghost use Rattle.dsd_bits.specs.Blocks.{blocks_size};
ghost use Rattle.dsd_bits.specs.Channels.{IsLevel, count_of};
ghost use Rattle.dsd_bits.specs.Limits.{most_bits};
ghost use Rattle.dsd_bits.specs.Sounds.{sound_channels, sound_size};
ghost use Rattle.interleave_core.specs.Reinterleaving.{reinterleaved};

use crate::moving::{push_as_blocks, push_as_frames};
use dsd_bits::{BitOrder, Bits, Interleaving, LaceFault, push_blocks, unlace_blocks, unlace_bytes};
use std::alloc::{AllocError, Global};

/// How many channels a segment of sound has, and how many bits each of them has.
#[derive(Clone, Copy)]
pub struct Segment {
    /// One to six channels.
    pub channels: usize,
    /// The bits of each, at most `2^36`.
    pub count: usize,
    pub ghost channel_number: { (1 ≤ channels) × (channels ≤ 6) },
    pub ghost in_limit: { count ≤ most_bits },
}

/// Appends the sound bytes of a segment in another interleaving: `bytes` is interleaved as `from`, what is appended as
/// `to`. Frames hold whole bytes of each channel. What follows the bits in the last blocks is ignored, and is written
/// as zeros. If there is no memory for the bytes, `out` is unchanged.
pub fn push_reinterleaved(
    alloc: Global,
    out: &mut Vec<u8>,
    bytes: &[u8],
    stretch: Segment,
    from: Interleaving,
    to: Interleaving,
) -> Result<(), AllocError>
    requires size { length bytes.now ≡ sound_size from stretch.channels stretch.count }
    requires from_whole { from ≡ Interleaving.Bytes → stretch.count % 8 ≡ 0 }
    requires to_whole { to ≡ Interleaving.Bytes → stretch.count % 8 ≡ 0 }
    ensures ok { OnOk result (out.new.items
        ≡ out.old.items ++ reinterleaved from to stretch.channels stretch.count bytes.now) }
    ensures err { OnErr result (out.new.items ≡ out.old.items) }
{
    match (from, to) {
        (Interleaving::Bytes, Interleaving::Bytes) => out.extend_from_slice(bytes),
        (Interleaving::Bytes, Interleaving::Blocks(order)) => {
            push_as_blocks(out, bytes, stretch, order)
        }
        (Interleaving::Blocks(order), Interleaving::Bytes) => {
            push_as_frames(out, bytes, stretch, order)
        }
        (Interleaving::Blocks(_), Interleaving::Blocks(order)) => {
            let channels = unlace(alloc, bytes, stretch, from)?;
            push_blocks(out, &channels, order)
        }
    }
}

/// The channels of a segment whose sound bytes are `bytes`, interleaved as `from`.
pub fn unlace(
    alloc: Global,
    bytes: &[u8],
    stretch: Segment,
    from: Interleaving,
) -> Result<Vec<Bits>, AllocError>
    requires size { length bytes.now ≡ sound_size from stretch.channels stretch.count }
    requires from_whole { from ≡ Interleaving.Bytes → stretch.count % 8 ≡ 0 }
    ensures bits { IfOk result (λ made. made.items ≡ sound_channels from stretch.channels stretch.count bytes.now) }
    ensures number { IfOk result (λ made. length made.items ≡ stretch.channels) }
    ensures level { IfOk result (λ made. IsLevel made.items) }
    ensures count { IfOk result (λ made. count_of made.items ≡ stretch.count) }
{
    match from {
        Interleaving::Bytes => unlace_frames(alloc, bytes, stretch),
        Interleaving::Blocks(order) => unlace_groups(alloc, bytes, stretch, order),
    }
}

// The channels of frames.
fn unlace_frames(alloc: Global, bytes: &[u8], stretch: Segment) -> Result<Vec<Bits>, AllocError>
    requires size { length bytes.now ≡ stretch.count / 8 * stretch.channels }
    requires whole { stretch.count % 8 ≡ 0 }
    ensures bits { IfOk result (λ made. made.items
        ≡ sound_channels Interleaving.Bytes stretch.channels stretch.count bytes.now) }
    ensures number { IfOk result (λ made. length made.items ≡ stretch.channels) }
    ensures level { IfOk result (λ made. IsLevel made.items) }
    ensures count { IfOk result (λ made. count_of made.items ≡ stretch.count) }
{
    match unlace_bytes(alloc, bytes, stretch.channels) {
        Ok(channels) => Ok(channels),
        Err(LaceFault::Memory) => Err(AllocError),
        Err(LaceFault::PartFrame | LaceFault::TooFewBytes) => unreachable!(),
    }
}

// The channels of groups of blocks.
fn unlace_groups(
    alloc: Global,
    bytes: &[u8],
    stretch: Segment,
    order: BitOrder,
) -> Result<Vec<Bits>, AllocError>
    requires size { length bytes.now ≡ blocks_size stretch.channels stretch.count }
    ensures bits { IfOk result (λ made. made.items
        ≡ sound_channels (Interleaving.Blocks order) stretch.channels stretch.count bytes.now) }
    ensures number { IfOk result (λ made. length made.items ≡ stretch.channels) }
    ensures level { IfOk result (λ made. IsLevel made.items) }
    ensures count { IfOk result (λ made. count_of made.items ≡ stretch.count) }
{
    match unlace_blocks(alloc, bytes, stretch.channels, stretch.count, order) {
        Ok(channels) => Ok(channels),
        Err(LaceFault::Memory) => Err(AllocError),
        Err(LaceFault::PartFrame | LaceFault::TooFewBytes) => unreachable!(),
    }
}
