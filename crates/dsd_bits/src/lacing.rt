//! Channels interleaved byte by byte, as the sound chunk of DSDIFF 1.5 holds them, and taken apart again.

ghost use Rattle.std.specs.Prelude.{◌≡◌, ◌≢◌, ℕ, ◌+◌, ◌*◌, ◌/◌, ◌%◌, ◌<◌, ◌≤◌, ◌++◌, ◌↔◌, IfOk, IsOk, OnOk, if◌then◌else◌, is_ok, length, slice_index, vec_capacity, vec_len};
ghost use Rattle.dsd_bits.specs.Channels.{IsLevel, count_of};
ghost use Rattle.dsd_bits.specs.Lacing.{AreLaced, LacedReadAgain, frame_number, laced, laced_part, picked, unlaced, unlaced_all};
ghost use Rattle.dsd_bits.specs.Limits.{most_bits};
ghost use Rattle.dsd_bits.specs.Packing.{packed};

use crate::bits::Bits;
use crate::fault::LaceFault;
use std::alloc::{AllocError, Global};
use std::simd::prelude::*;

/// The channels in interleaved sound bytes, one to six. A frame is one byte of each channel in turn, with the most
/// significant bit as the earliest. Each channel gets 8 bits for each frame, at most `2^36`.
///
/// Refusals, in this order: `PartFrame` if the bytes are not a whole number of frames, `Memory`.
pub fn unlace_bytes(alloc: Global, bytes: &[u8], channels: usize) -> Result<Vec<Bits>, LaceFault>
    requires channel_number { (1 ≤ channels) × (channels ≤ 6) }
    requires in_limit { 8 * (length bytes.now / channels) ≤ most_bits }
    ensures ok { IfOk result (λ made. made.items ≡ unlaced_all bytes.now channels) }
    ensures part_frame { (result ≡ Err LaceFault.PartFrame) ↔ (length bytes.now % channels ≢ 0) }
    ensures no_too_few { result ≢ Err LaceFault.TooFewBytes }
{
    if bytes.len() % channels != 0 {
        return Err(LaceFault::PartFrame);
    }
    if channels == 2 {
        return Ok(unlace_two(alloc, bytes)?);
    }
    let mut made = Vec::with_capacity(alloc, channels)?;
    for c in 0..channels {
        made.push_reserved(unlace_channel(alloc, bytes, channels, c)?);
    }
    Ok(made)
}

// Both channels of interleaved sound bytes.
fn unlace_two(alloc: Global, bytes: &[u8]) -> Result<Vec<Bits>, AllocError>
    requires whole_frames { length bytes.now % 2 ≡ 0 }
    requires in_limit { 8 * (length bytes.now / 2) ≤ most_bits }
    ensures { IfOk result (λ made. made.items ≡ unlaced_all bytes.now 2) }
{
    let frames = bytes.len() / 2;
    let mut left = Vec::with_capacity(alloc, frames)?;
    let mut right = Vec::with_capacity(alloc, frames)?;
    for part in 0..frames.div_ceil(4096) {
        let from = 4096 * part;
        push_split(
            &mut left,
            &mut right,
            bytes,
            from,
            (frames - from).min(4096),
        )?;
    }
    let mut made = Vec::with_capacity(alloc, 2)?;
    made.push_reserved(Bits::from_whole_bytes(left));
    made.push_reserved(Bits::from_whole_bytes(right));
    Ok(made)
}

// Appends each of two channels' bytes in `count` frames, from one frame on.
fn push_split(
    left: &mut Vec<u8>,
    right: &mut Vec<u8>,
    bytes: &[u8],
    from: usize,
    frames: usize,
) -> Result<(), AllocError>
    requires { 2 * (from + frames) ≤ length bytes.now }
    ensures left { OnOk result (left.new.items ≡ left.old.items ++ picked bytes.now 2 0 from frames) }
    ensures right { OnOk result (right.new.items ≡ right.old.items ++ picked bytes.now 2 1 from frames) }
{
    let kept = left.len();
    left.resize(kept + frames, 0)?;
    let (_, to_left) = left.as_mut_slice().split_at_mut(kept);
    let kept = right.len();
    right.resize(kept + frames, 0)?;
    let (_, to_right) = right.as_mut_slice().split_at_mut(kept);
    split_two(to_left, to_right, bytes, from);
    Ok(())
}

// Writes each of two channels' bytes in frames from one on: 16 frames at a time, then the rest.
pub(crate) fn split_two(left: &mut [u8], right: &mut [u8], bytes: &[u8], from: usize)
    requires inside { 2 * (from + length left.old) ≤ length bytes.now }
    requires right { length right.old ≡ length left.old }
    ensures left { left.new ≡ picked bytes.now 2 0 from (length left.old) }
    ensures right { right.new ≡ picked bytes.now 2 1 from (length left.old) }
{
    let whole = left.len() / 16;
    for k in 0..whole {
        let (even, odd) = split_frames(bytes, from + 16 * k);
        even.copy_to_slice(&mut left[16 * k..]);
        odd.copy_to_slice(&mut right[16 * k..]);
    }
    for frame in 16 * whole..left.len() {
        left[frame] = bytes[2 * (from + frame)];
        right[frame] = bytes[2 * (from + frame) + 1];
    }
}

// Each of two channels' bytes in 16 frames.
#[inline(always)]
fn split_frames(bytes: &[u8], frame: usize) -> (u8x16, u8x16)
    requires { 2 * frame + 32 ≤ length bytes.now }
    ensures left { (length result.0 ≡ 16) × ((k : ℕ) → k < 16 →
        slice_index result.0 k ≡ slice_index bytes.now ((frame + k) * 2 + 0)) }
    ensures right { (length result.1 ≡ 16) × ((k : ℕ) → k < 16 →
        slice_index result.1 k ≡ slice_index bytes.now ((frame + k) * 2 + 1)) }
{
    let first = u8x16::from_slice(&bytes[2 * frame..]);
    let second = u8x16::from_slice(&bytes[2 * frame + 16..]);
    first.deinterleave(second)
}

// One channel of interleaved sound bytes.
fn unlace_channel(
    alloc: Global,
    bytes: &[u8],
    channels: usize,
    channel: usize,
) -> Result<Bits, AllocError>
    requires channel { channel < channels }
    requires in_limit { 8 * (length bytes.now / channels) ≤ most_bits }
    ensures { IfOk result (λ bits. bits ≡ unlaced bytes.now channels channel) }
{
    if channels == 1 {
        return Ok(Bits::from_whole_bytes(Vec::from_slice(alloc, bytes)?));
    }
    let mut own = Vec::new(alloc);
    own.resize(bytes.len() / channels, 0)?;
    pick(own.as_mut_slice(), bytes, channels, channel);
    Ok(Bits::from_whole_bytes(own))
}

// Writes one channel's byte of each frame, where a frame has `channels` bytes.
fn pick(to: &mut [u8], bytes: &[u8], channels: usize, channel: usize)
    requires channel { channel < channels }
    requires enough { channels * length to.old ≤ length bytes.now }
    ensures { (frame : ℕ) → frame < length to.old →
        slice_index to.new frame ≡ slice_index bytes.now (frame * channels + channel) }
{
    for frame in 0..to.len() {
        to[frame] = bytes[frame * channels + channel];
    }
}

/// The sound bytes of one to six channels of equal length in whole bytes: the first byte of each
/// channel in turn, then the second byte of each, and so on.
pub fn lace_bytes(alloc: Global, channels: &[Bits]) -> Result<Vec<u8>, AllocError>
    requires channel_number { (1 ≤ length channels.now) × (length channels.now ≤ 6) }
    requires level { IsLevel channels.now }
    requires whole_bytes { count_of channels.now % 8 ≡ 0 }
    ensures text { IfOk result (λ bytes. bytes.items ≡ laced channels.now) }
    ensures places { IfOk result (λ bytes. AreLaced channels.now bytes.items) }
{
    let mut made = Vec::new(alloc);
    push_laced(&mut made, channels)?;
    Ok(made)
}

/// Appends the sound bytes of one to six channels of equal length in whole bytes, as [`lace_bytes`] returns them. If
/// there is no memory for them, `out` is unchanged.
pub fn push_laced(out: &mut Vec<u8>, channels: &[Bits]) -> Result<(), AllocError>
    requires channel_number { (1 ≤ length channels.now) × (length channels.now ≤ 6) }
    requires level { IsLevel channels.now }
    requires whole_bytes { count_of channels.now % 8 ≡ 0 }
    ensures text { out.new.items ≡
        (if is_ok result then out.old.items ++ laced channels.now else out.old.items) }
{
    let first = channels[0].as_bytes();
    if channels.len() == 1 {
        return out.extend_from_slice(first);
    }
    let frames = first.len();
    out.reserve(frames * channels.len())?;
    for part in 0..frames.div_ceil(4096) {
        let from = 4096 * part;
        push_frames(out, channels, from, (frames - from).min(4096))?;
    }
    Ok(())
}

// Appends the sound bytes of two or more channels in some frames from one on. It fails only if there is no room.
fn push_frames(
    out: &mut Vec<u8>,
    channels: &[Bits],
    from: usize,
    frames: usize,
) -> Result<(), AllocError>
    requires channel_number { (2 ≤ length channels.now) × (length channels.now ≤ 6) }
    requires level { IsLevel channels.now }
    requires whole_bytes { count_of channels.now % 8 ≡ 0 }
    requires inside { from + frames ≤ frame_number channels.now }
    requires few { frames ≤ 4096 }
    ensures ok { OnOk result (out.new.items ≡ out.old.items ++ laced_part channels.now from frames) }
    ensures capacity { vec_capacity out.old ≤ vec_capacity out.new }
    ensures succeeds { vec_len out.old + frames * length channels.now ≤ vec_capacity out.old → IsOk result }
{
    let kept = out.len();
    out.resize(kept + frames * channels.len(), 0)?;
    let (_, to) = out.as_mut_slice().split_at_mut(kept);
    lace_into(to, channels, from, frames);
    Ok(())
}

// Writes the sound bytes of two or more channels in some frames from one on.
fn lace_into(to: &mut [u8], channels: &[Bits], from: usize, frames: usize)
    requires channel_number { 2 ≤ length channels.now }
    requires level { IsLevel channels.now }
    requires whole_bytes { count_of channels.now % 8 ≡ 0 }
    requires inside { from + frames ≤ frame_number channels.now }
    requires size { length to.old ≡ frames * length channels.now }
    ensures { to.new ≡ laced_part channels.now from frames }
{
    if channels.len() == 2 {
        let left = bytes_from(&channels[0], from, frames);
        let right = bytes_from(&channels[1], from, frames);
        lace_two(to, left, right);
    } else {
        for c in 0..channels.len() {
            let bytes = bytes_from(&channels[c], from, frames);
            spread(to, bytes, channels.len(), c);
        }
    }
}

// Whole bytes of a channel, from one on.
fn bytes_from(channel: &Bits, from: usize, size: usize) -> &[u8]
    requires { 8 * (from + size) ≤ length channel.now }
    ensures size { length result.now ≡ size }
    ensures at { (k : ℕ) → k < size →
        slice_index result.now k ≡ slice_index (packed channel.now) (from + k) }
{
    let bytes = channel.as_bytes();
    &bytes[from..from + size]
}

// Writes the bytes of two channels, one of each in turn.
pub(crate) fn lace_two(to: &mut [u8], left: &[u8], right: &[u8])
    requires left { length to.old ≡ 2 * length left.now }
    requires right { length right.now ≡ length left.now }
    ensures left { (frame : ℕ) → frame < length left.now →
        slice_index to.new (2 * frame) ≡ slice_index left.now frame }
    ensures right { (frame : ℕ) → frame < length left.now →
        slice_index to.new (2 * frame + 1) ≡ slice_index right.now frame }
{
    for frame in 0..left.len() {
        to[2 * frame] = left[frame];
        to[2 * frame + 1] = right[frame];
    }
}

// Writes a channel's bytes over its bytes of the frames.
pub(crate) fn spread(to: &mut [u8], bytes: &[u8], channels: usize, channel: usize)
    requires channel { channel < channels }
    requires enough { channels * length bytes.now ≤ length to.old }
    ensures own { (frame : ℕ) → frame < length bytes.now →
        slice_index to.new (frame * channels + channel) ≡ slice_index bytes.now frame }
    ensures others { (frame d : ℕ) → d < channels → d ≢ channel →
        slice_index to.new (frame * channels + d) ≡ slice_index to.old (frame * channels + d) }
{
    for frame in 0..bytes.len() {
        to[frame * channels + channel] = bytes[frame];
    }
}

/// The law of interleaving by bytes: channels of equal length in whole bytes that are interleaved are read again.
pub fn laced_channels_are_read_again()
    ensures { LacedReadAgain }
{}
