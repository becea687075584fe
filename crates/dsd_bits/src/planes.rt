//! Frames (one byte of each channel in turn) and planes (4096 bytes of each channel in turn).

ghost use Rattle.std.specs.Prelude.{◌≡◌, ℕ, ◌+◌, ◌*◌, ◌/◌, ◌%◌, ◌<◌, ◌≤◌, ◌⊎◌, length, slice_index};
ghost use Rattle.dsd_bits.specs.Limits.{block_bytes};

use crate::lacing::split_two;
use crate::limits::BLOCK_BYTES;
use std::simd::prelude::*;

/// Writes `count` frames of one to six channels into planes: the byte of channel `c` in frame `k` to place `4096 * c +
/// k`. There are at most 4096 frames. The rest of each plane is unchanged.
pub fn frames_to_planes(planes: &mut [u8], frames: &[u8], channels: usize, count: usize)
    requires channel_number { (1 ≤ channels) × (channels ≤ 6) }
    requires few { count ≤ block_bytes }
    requires frames { count * channels ≤ length frames.now }
    requires planes { block_bytes * channels ≤ length planes.old }
    ensures written { (c k : ℕ) → c < channels → k < count →
        slice_index planes.new (block_bytes * c + k) ≡ slice_index frames.now (k * channels + c) }
    ensures others { (place : ℕ) → (channels ≤ place / block_bytes) ⊎ (count ≤ place % block_bytes) →
        slice_index planes.new place ≡ slice_index planes.old place }
{
    match channels {
        1 => take_apart::<1>(planes, frames, count),
        2 => take_two_apart(planes, frames, count),
        3 => take_apart::<3>(planes, frames, count),
        4 => take_apart::<4>(planes, frames, count),
        5 => take_five_apart(planes, frames, count),
        _ => take_apart::<6>(planes, frames, count),
    }
}

// The same for a number of channels that is known at compile time, so that the compiler makes vectors of it.
fn take_apart<const N: usize>(planes: &mut [u8], frames: &[u8], count: usize)
    requires number { N ≤ 6 }
    requires few { count ≤ block_bytes }
    requires frames { count * N ≤ length frames.now }
    requires planes { block_bytes * N ≤ length planes.old }
    ensures written { (c k : ℕ) → c < N → k < count →
        slice_index planes.new (block_bytes * c + k) ≡ slice_index frames.now (k * N + c) }
    ensures others { (place : ℕ) → (N ≤ place / block_bytes) ⊎ (count ≤ place % block_bytes) →
        slice_index planes.new place ≡ slice_index planes.old place }
{
    for k in 0..count {
        for c in 0..N {
            planes[4096 * c + k] = frames[k * N + c];
        }
    }
}

// The same for two channels, 16 frames at a time whatever processor it is compiled for.
fn take_two_apart(planes: &mut [u8], frames: &[u8], count: usize)
    requires few { count ≤ block_bytes }
    requires frames { count * 2 ≤ length frames.now }
    requires planes { block_bytes * 2 ≤ length planes.old }
    ensures written { (c k : ℕ) → c < 2 → k < count →
        slice_index planes.new (block_bytes * c + k) ≡ slice_index frames.now (k * 2 + c) }
    ensures others { (place : ℕ) → (2 ≤ place / block_bytes) ⊎ (count ≤ place % block_bytes) →
        slice_index planes.new place ≡ slice_index planes.old place }
{
    let (first, second) = planes.split_at_mut(BLOCK_BYTES);
    let (left, _) = first.split_at_mut(count);
    let (right, _) = second.split_at_mut(count);
    split_two(left, right, frames, 0);
}

// The same for five channels, of which no compiler makes vectors by itself.
fn take_five_apart(planes: &mut [u8], frames: &[u8], count: usize)
    requires few { count ≤ block_bytes }
    requires frames { count * 5 ≤ length frames.now }
    requires planes { block_bytes * 5 ≤ length planes.old }
    ensures written { (c k : ℕ) → c < 5 → k < count →
        slice_index planes.new (block_bytes * c + k) ≡ slice_index frames.now (k * 5 + c) }
    ensures others { (place : ℕ) → (5 ≤ place / block_bytes) ⊎ (count ≤ place % block_bytes) →
        slice_index planes.new place ≡ slice_index planes.old place }
{
    for channel in 0..5 {
        take_fifth_out(planes, frames, channel, count);
    }
}

// One of five channels: 16 frames at a time, then the rest.
fn take_fifth_out(planes: &mut [u8], frames: &[u8], channel: usize, count: usize)
    requires channel { channel < 5 }
    requires few { count ≤ block_bytes }
    requires frames { count * 5 ≤ length frames.now }
    requires planes { block_bytes * 5 ≤ length planes.old }
    ensures written { (k : ℕ) → k < count →
        slice_index planes.new (block_bytes * channel + k) ≡ slice_index frames.now (k * 5 + channel) }
    ensures others { (place : ℕ) → (place < block_bytes * channel) ⊎ (block_bytes * channel + count ≤ place) →
        slice_index planes.new place ≡ slice_index planes.old place }
{
    let whole = count / 16;
    let plane = BLOCK_BYTES * channel;
    for k in 0..whole {
        every_fifth(frames, 80 * k + channel).copy_to_slice(&mut planes[plane + 16 * k..]);
    }
    for k in 16 * whole..count {
        planes[plane + k] = frames[5 * k + channel];
    }
}

// Every fifth byte from a place on, 16 in all.
#[inline(always)]
fn every_fifth(bytes: &[u8], from: usize) -> u8x16
    requires { from + 76 ≤ length bytes.now }
    ensures { (length result ≡ 16) × ((k : ℕ) → k < 16 →
        slice_index result k ≡ slice_index bytes.now (from + 5 * k)) }
{
    let first = eight_of_fifths(bytes, from);
    let second = eight_of_fifths(bytes, from + 40);
    first.shuffle(
        second,
        [0, 1, 2, 3, 4, 5, 6, 7, 8, 9, 10, 11, 12, 13, 14, 15],
    )
}

// The same, 8 in all: four from each of two vectors.
#[inline(always)]
fn eight_of_fifths(bytes: &[u8], from: usize) -> u8x8
    requires { from + 36 ≤ length bytes.now }
    ensures { (length result ≡ 8) × ((k : ℕ) → k < 8 →
        slice_index result k ≡ slice_index bytes.now (from + 5 * k)) }
{
    let first = u8x16::from_slice(&bytes[from..]);
    let second = u8x16::from_slice(&bytes[from + 20..]);
    first.shuffle(second, [0, 5, 10, 15, 16, 21, 26, 31])
}

/// Writes `count` frames of one to six channels from planes: the byte of channel `c` in frame `k` from place
/// `4096 * c + k`. There are at most 4096 frames. What follows them is unchanged.
pub fn planes_to_frames(frames: &mut [u8], planes: &[u8], channels: usize, count: usize)
    requires channel_number { (1 ≤ channels) × (channels ≤ 6) }
    requires few { count ≤ block_bytes }
    requires frames { count * channels ≤ length frames.old }
    requires planes { block_bytes * channels ≤ length planes.now }
    ensures written { (c k : ℕ) → c < channels → k < count →
        slice_index frames.new (k * channels + c) ≡ slice_index planes.now (block_bytes * c + k) }
    ensures others { (place : ℕ) → count * channels ≤ place
        → slice_index frames.new place ≡ slice_index frames.old place }
{
    match channels {
        1 => put_together::<1>(frames, planes, count),
        2 => put_together::<2>(frames, planes, count),
        3 => put_together::<3>(frames, planes, count),
        4 => put_together::<4>(frames, planes, count),
        5 => put_together::<5>(frames, planes, count),
        _ => put_together::<6>(frames, planes, count),
    }
}

// The same for a number of channels that is known at compile time, so that the compiler makes vectors of it.
fn put_together<const N: usize>(frames: &mut [u8], planes: &[u8], count: usize)
    requires number { N ≤ 6 }
    requires few { count ≤ block_bytes }
    requires frames { count * N ≤ length frames.old }
    requires planes { block_bytes * N ≤ length planes.now }
    ensures written { (c k : ℕ) → c < N → k < count →
        slice_index frames.new (k * N + c) ≡ slice_index planes.now (block_bytes * c + k) }
    ensures others { (place : ℕ) → count * N ≤ place → slice_index frames.new place ≡ slice_index frames.old place }
{
    for k in 0..count {
        for c in 0..N {
            frames[k * N + c] = planes[4096 * c + k];
        }
    }
}
