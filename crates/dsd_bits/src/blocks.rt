//! Channels interleaved in blocks of sound bytes, as the data chunk of DSF 1.01 holds them, and taken apart again.

ghost use Rattle.std.specs.Prelude.{◌≡◌, ◌≢◌, ◌+◌, ◌*◌, ◌<◌, ◌≤◌, ◌++◌, ◌↔◌, IfOk, IsOk, OnOk, if◌then◌else◌, is_ok, length, map, slice_index, vec_capacity, vec_len};
ghost use Rattle.std.specs.List.{range_with_len};
ghost use Rattle.dsd_bits.specs.Blocks.{AreBlocks, BlocksReadAgain, blocked, blocks_size, ordered, unblocked, unblocked_all};
ghost use Rattle.dsd_bits.specs.Channels.{IsLevel, count_of};
ghost use Rattle.dsd_bits.specs.Limits.{block_bytes, most_bits};

use crate::bits::Bits;
use crate::fault::LaceFault;
use crate::limits::{BLOCK_BITS, BLOCK_BYTES};
use crate::reversing::reverse;
use std::alloc::{AllocError, Global};

/// Which bit of a sound byte of DSF 1.01 is the earliest.
#[derive(Clone, Copy, PartialEq, Eq)]
pub enum BitOrder {
    /// The least significant, as with 1 bit per sample.
    LeastFirst,
    /// The most significant, as with 8 bits per sample.
    MostFirst,
}

/// The first `count` bits, at most `2^36`, of each of one to six channels in sound bytes of DSF 1.01. For every 32768
/// bits these hold a block of 4096 bytes of each channel in turn. What follows a channel's last bit or the last block
/// is left out.
///
/// Refusals, in this order: `TooFewBytes` if a block is missing or cut short, `Memory`.
pub fn unlace_blocks(
    alloc: Global,
    bytes: &[u8],
    channels: usize,
    count: usize,
    order: BitOrder,
) -> Result<Vec<Bits>, LaceFault>
    requires channel_number { (1 ≤ channels) × (channels ≤ 6) }
    requires in_limit { count ≤ most_bits }
    ensures ok { IfOk result (λ made. made.items ≡ unblocked_all order bytes.now channels count) }
    ensures level { IfOk result (λ made. IsLevel made.items) }
    ensures count { IfOk result (λ made. count_of made.items ≡ count) }
    ensures too_few { (result ≡ Err LaceFault.TooFewBytes) ↔ (length bytes.now < blocks_size channels count) }
    ensures no_part_frame { result ≢ Err LaceFault.PartFrame }
{
    if bytes.len() < blocks_size(channels, count) {
        return Err(LaceFault::TooFewBytes);
    }
    let mut made = Vec::with_capacity(alloc, channels)?;
    for c in 0..channels {
        made.push_reserved(unlace_channel(alloc, bytes, channels, c, count, order)?);
    }
    Ok(made)
}

/// How many sound bytes of DSF 1.01 one to six channels of `count` bits take, at most `2^36` bits each: whole groups of
/// blocks.
pub fn blocks_size(channels: usize, count: usize) -> usize
    requires channel_number { channels ≤ 6 }
    requires in_limit { count ≤ most_bits }
    ensures value { result ≡ blocks_size channels count }
    ensures in_limit { result ≤ 51539607552 }
{
    count.div_ceil(BLOCK_BITS) * channels * BLOCK_BYTES
}

// Channel `c` of sound bytes in blocks.
fn unlace_channel(
    alloc: Global,
    bytes: &[u8],
    channels: usize,
    c: usize,
    count: usize,
    order: BitOrder,
) -> Result<Bits, AllocError>
    requires channel { (c < channels) × (channels ≤ 6) }
    requires enough { blocks_size channels count ≤ length bytes.now }
    requires in_limit { count ≤ most_bits }
    ensures { IfOk result (λ bits. bits ≡ unblocked order bytes.now channels count c) }
{
    let size = count.div_ceil(8);
    let mut own = Vec::with_capacity(alloc, size)?;
    for group in 0..count.div_ceil(BLOCK_BITS) {
        let (_, block) = bytes.split_at((group * channels + c) * BLOCK_BYTES);
        let (used, _) = block.split_at((size - BLOCK_BYTES * group).min(BLOCK_BYTES));
        push_in_order(&mut own, used, order)?;
    }
    Ok(Bits::from_first_bits(own, count))
}

/// The sound bytes of DSF 1.01 of one to six channels of equal length: for every 32768 bits a block of 4096 bytes of
/// each channel in turn. The last block of a channel is filled up with zeros.
pub fn lace_blocks(alloc: Global, channels: &[Bits], order: BitOrder) -> Result<Vec<u8>, AllocError>
    requires channel_number { (1 ≤ length channels.now) × (length channels.now ≤ 6) }
    requires level { IsLevel channels.now }
    ensures text { IfOk result (λ bytes. bytes.items ≡ blocked order channels.now) }
    ensures places { IfOk result (λ bytes. AreBlocks order channels.now bytes.items) }
{
    let mut made = Vec::new(alloc);
    push_blocks(&mut made, channels, order)?;
    Ok(made)
}

/// Appends the sound bytes of DSF 1.01 of one to six channels of equal length, as [`lace_blocks`] returns them. If
/// there is no memory for them, `out` is unchanged.
pub fn push_blocks(out: &mut Vec<u8>, channels: &[Bits], order: BitOrder) -> Result<(), AllocError>
    requires channel_number { (1 ≤ length channels.now) × (length channels.now ≤ 6) }
    requires level { IsLevel channels.now }
    ensures text { out.new.items ≡
        (if is_ok result then out.old.items ++ blocked order channels.now else out.old.items) }
{
    let blocks = channels[0].len().div_ceil(BLOCK_BITS) * channels.len();
    out.reserve(BLOCK_BYTES * blocks)?;
    for block in 0..blocks {
        let bytes = channels[block % channels.len()].as_bytes();
        push_block(out, bytes, block / channels.len(), order)?;
    }
    Ok(())
}

// Appends the block of a channel in a group: 4096 of its bytes, with zeros after their end. It fails only if there is
// no room.
pub(crate) fn push_block(
    out: &mut Vec<u8>,
    bytes: &[u8],
    group: usize,
    order: BitOrder,
) -> Result<(), AllocError>
    requires { block_bytes * group ≤ length bytes.now }
    ensures ok { OnOk result (out.new.items ≡
        out.old.items ++ map (ordered order) (map (slice_index bytes.now) (range_with_len (block_bytes * group) block_bytes))) }
    ensures capacity { vec_capacity out.old ≤ vec_capacity out.new }
    ensures succeeds { vec_len out.old + block_bytes ≤ vec_capacity out.old → IsOk result }
{
    let (_, rest) = bytes.split_at(BLOCK_BYTES * group);
    let (used, _) = rest.split_at(rest.len().min(BLOCK_BYTES));
    let kept = out.len();
    out.extend_from_slice(used)?;
    out.resize(kept + BLOCK_BYTES, 0)?;
    let (_, block) = out.as_mut_slice().split_at_mut(kept);
    put_in_order(block, order);
    Ok(())
}

// Appends bytes, each changed between this order of its bits and the order with the most significant bit first.
fn push_in_order(out: &mut Vec<u8>, bytes: &[u8], order: BitOrder) -> Result<(), AllocError>
    ensures { OnOk result (out.new.items ≡ out.old.items ++ map (ordered order) bytes.now) }
{
    let kept = out.len();
    out.extend_from_slice(bytes)?;
    let (_, added) = out.as_mut_slice().split_at_mut(kept);
    put_in_order(added, order);
    Ok(())
}

/// Changes bytes between this order of their bits and the order with the most significant bit first.
pub fn put_in_order(bytes: &mut [u8], order: BitOrder)
    ensures { bytes.new ≡ map (ordered order) bytes.old }
{
    match order {
        BitOrder::LeastFirst => reverse(bytes),
        BitOrder::MostFirst => {}
    }
}

/// The law of blocks: channels of equal length that are interleaved in blocks are read again, whatever follows the
/// blocks.
pub fn laced_blocks_are_read_again()
    ensures { BlocksReadAgain }
{}
