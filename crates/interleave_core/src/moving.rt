//! Frames are written as blocks, and blocks as frames, without making channels: a group of 4096 bytes a channel at a
//! time.

ghost use Rattle.std.specs.Prelude.{◌≡◌, ℕ, ◌+◌, ◌*◌, ◌/◌, ◌%◌, ◌<◌, ◌≤◌, ◌++◌, OnErr, OnOk, length, slice_index};
ghost use Rattle.std.specs.Int.{div_ceil};
ghost use Rattle.dsd_bits.specs.Blocks.{blocked, blocks_size, unblocked_all};
ghost use Rattle.dsd_bits.specs.Lacing.{laced, unlaced_all};
ghost use Rattle.dsd_bits.specs.Limits.{block_bytes, most_bits};

use crate::reinterleaving::Segment;
use dsd_bits::{
    BLOCK_BYTES, BitOrder, blocks_size, frames_to_planes, planes_to_frames, put_in_order,
};
use std::alloc::AllocError;

// Appends the frames of a segment as blocks.
pub(crate) fn push_as_blocks(
    out: &mut Vec<u8>,
    bytes: &[u8],
    stretch: Segment,
    order: BitOrder,
) -> Result<(), AllocError>
    requires size { length bytes.now ≡ stretch.count / 8 * stretch.channels }
    requires whole { stretch.count % 8 ≡ 0 }
    ensures ok { OnOk result (out.new.items ≡ out.old.items ++ blocked order (unlaced_all bytes.now stretch.channels)) }
    ensures err { OnErr result (out.new.items ≡ out.old.items) }
{
    let kept = out.len();
    out.resize(kept + blocks_size(stretch.channels, stretch.count), 0)?;
    let (_, blocks) = out.as_mut_slice().split_at_mut(kept);
    fill_blocks(blocks, bytes, stretch);
    put_in_order(blocks, order);
    Ok(())
}

// Writes the frames of a segment over zeros, as blocks.
fn fill_blocks(blocks: &mut [u8], bytes: &[u8], stretch: Segment)
    requires size { length bytes.now ≡ stretch.count / 8 * stretch.channels }
    requires whole { stretch.count % 8 ≡ 0 }
    requires room { length blocks.old ≡ blocks_size stretch.channels stretch.count }
    requires zeros { (place : ℕ) → slice_index blocks.old place ≡ 0 }
    ensures { (g c w : ℕ) → g < div_ceil stretch.count 32768 → c < stretch.channels → w < block_bytes →
        slice_index blocks.new ((g * stretch.channels + c) * block_bytes + w) ≡ slice_index bytes.now ((block_bytes * g + w) * stretch.channels + c) }
{
    let frames = stretch.count / 8;
    for group in 0..frames.div_ceil(BLOCK_BYTES) {
        let from = BLOCK_BYTES * group;
        let (_, planes) = blocks.split_at_mut(from * stretch.channels);
        let (_, rest) = bytes.split_at(from * stretch.channels);
        let count = (frames - from).min(BLOCK_BYTES);
        frames_to_planes(planes, rest, stretch.channels, count);
    }
}

// Appends the blocks of a segment as frames.
pub(crate) fn push_as_frames(
    out: &mut Vec<u8>,
    bytes: &[u8],
    stretch: Segment,
    order: BitOrder,
) -> Result<(), AllocError>
    requires size { length bytes.now ≡ blocks_size stretch.channels stretch.count }
    requires whole { stretch.count % 8 ≡ 0 }
    ensures ok { OnOk result (out.new.items
        ≡ out.old.items ++ laced (unblocked_all order bytes.now stretch.channels stretch.count)) }
    ensures err { OnErr result (out.new.items ≡ out.old.items) }
{
    let kept = out.len();
    out.resize(kept + stretch.count / 8 * stretch.channels, 0)?;
    let (_, frames) = out.as_mut_slice().split_at_mut(kept);
    fill_frames(frames, bytes, stretch);
    put_in_order(frames, order);
    Ok(())
}

// Writes the blocks of a segment as frames.
fn fill_frames(frames: &mut [u8], bytes: &[u8], stretch: Segment)
    requires size { length bytes.now ≡ blocks_size stretch.channels stretch.count }
    requires frames { length frames.old ≡ stretch.count / 8 * stretch.channels }
    ensures { (c j : ℕ) → c < stretch.channels → j < stretch.count / 8 →
        slice_index frames.new (j * stretch.channels + c) ≡ slice_index bytes.now ((j / block_bytes * stretch.channels + c) * block_bytes + j % block_bytes) }
{
    let number = stretch.count / 8;
    for group in 0..number.div_ceil(BLOCK_BYTES) {
        let from = BLOCK_BYTES * group;
        let (_, rest) = frames.split_at_mut(from * stretch.channels);
        let (_, planes) = bytes.split_at(from * stretch.channels);
        let count = (number - from).min(BLOCK_BYTES);
        planes_to_frames(rest, planes, stretch.channels, count);
    }
}
