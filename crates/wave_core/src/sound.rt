//! The samples and what follows them.

ghost use Rattle.std.specs.Prelude.{◌≡◌, ◌≢◌, ℕ, ◌+◌, ◌*◌, ◌/◌, ◌≤◌, ◌<◌, ◌++◌, pos, All, OnOk, OnErr, length, slice_index, slice_index_or};
ghost use Rattle.wave_core.specs.Contents.{IsSample, IsWidth};
ghost use Rattle.wave_core.specs.Frames.{frame_bytes};
ghost use Rattle.wave_core.specs.Places.{HasSample, HasSamples, SameButAt, SameButOf};
ghost use Rattle.wave_core.specs.Sizes.{pad_size};
ghost use Rattle.wave_core.specs.Texts.{pad_bytes, sample_bytes};

use crate::spec::WaveSpec;
use std::alloc::AllocError;

/// Appends a sample of `width` bits, 16 or 24, in two's complement, the lowest byte first: two or three bytes. The
/// value is in the range of the width. After a refused growth `out` is unchanged.
pub fn push_sample(out: &mut Vec<u8>, width: u32, value: i32) -> Result<(), AllocError>
    requires width { IsWidth width }
    requires value { IsSample width value }
    ensures ok { OnOk result (out.new.items ≡ out.old.items ++ sample_bytes width value) }
    ensures unchanged { OnErr result (out.new.items ≡ out.old.items) }
{
    let [low, middle, high, _] = value.to_le_bytes();
    if width == 16 {
        return out.extend_from_slice(&[low, middle]);
    }
    out.extend_from_slice(&[low, middle, high])
}

/// Appends frames, each a sample of each channel in order, as [`push_sample`] writes them. The samples come channel by
/// channel, `frames` of each. After a refused growth `out` is unchanged.
pub fn push_frames(
    out: &mut Vec<u8>,
    width: u32,
    samples: &[i32],
    frames: usize,
) -> Result<(), AllocError>
    requires width { IsWidth width }
    requires values { All (IsSample width) samples.now }
    requires frames { 1 ≤ frames }
    ensures ok { OnOk result (out.new.items ≡ out.old.items ++ frame_bytes width samples.now frames) }
    ensures unchanged { OnErr result (out.new.items ≡ out.old.items) }
{
    let before = out.len();
    let channels = samples.len() / frames;
    let size = (width / 8) as usize;
    out.resize(before + frames * channels * size, 0)?;
    let (_, to) = out.as_mut_slice().split_at_mut(before);
    if width == 16 {
        fill_frames(to, 16, samples, frames);
    } else {
        fill_frames(to, 24, samples, frames);
    }
    Ok(())
}

// Writes frames of samples that come channel by channel.
#[inline(always)]
fn fill_frames(to: &mut [u8], width: u32, samples: &[i32], frames: usize)
    requires width { IsWidth width }
    requires values { All (IsSample width) samples.now }
    requires frames { 1 ≤ frames }
    requires size { length to.old ≡ frames * (length samples.now / frames) * (width / 8) }
    ensures { to.new ≡ frame_bytes width samples.now frames }
{
    let channels = samples.len() / frames;
    if channels == 2 {
        let (left, right) = samples.split_at(frames);
        fill_pairs(to, width, left, right);
        return;
    }
    for c in 0..channels {
        spread(
            to,
            width,
            &samples[c * frames..c * frames + frames],
            channels,
            c,
        );
    }
}

// Writes the samples of two channels over the frames of both, in order. The six bytes of a frame share a place in the
// cache, which would be visited twice channel by channel.
#[inline(always)]
fn fill_pairs(to: &mut [u8], width: u32, left: &[i32], right: &[i32])
    requires width { IsWidth width }
    requires left { All (IsSample width) left.now }
    requires right { All (IsSample width) right.now }
    requires as_many { length left.now ≤ length right.now }
    requires enough { length left.now * 2 * (width / 8) ≤ length to.old }
    ensures size { length to.new ≡ length to.old }
    ensures left { HasSamples width (λ i. i * 2) (length left.now) left.now to.new }
    ensures right { HasSamples width (λ i. i * 2 + 1) (length left.now) right.now to.new }
{
    for i in 0..left.len() {
        put_sample(to, width, i * 2, left[i]);
        put_sample(to, width, i * 2 + 1, right[i]);
    }
}

// Writes the samples of a channel over sample `c` of each frame of `channels` samples.
#[inline(always)]
fn spread(to: &mut [u8], width: u32, samples: &[i32], channels: usize, c: usize)
    requires width { IsWidth width }
    requires values { All (IsSample width) samples.now }
    requires channel { c < channels }
    requires enough { length samples.now * channels * (width / 8) ≤ length to.old }
    ensures own { HasSamples width (λ i. i * channels + c) (length samples.now) samples.now to.new }
    ensures others { SameButOf width channels c to.old to.new }
{
    for i in 0..samples.len() {
        put_sample(to, width, i * channels + c, samples[i]);
    }
}

// Writes a sample, as [`push_sample`] does, over that at a place.
#[inline(always)]
fn put_sample(to: &mut [u8], width: u32, place: usize, value: i32)
    requires width { IsWidth width }
    requires value { IsSample width value }
    requires inside { place * (width / 8) + width / 8 ≤ length to.old }
    ensures own { HasSample width place value to.new }
    ensures others { SameButAt width place to.old to.new }
{
    let [low, middle, high, _] = value.to_le_bytes();
    if width == 16 {
        to[place * 2] = low;
        to[place * 2 + 1] = middle;
        return;
    }
    to[place * 3] = low;
    to[place * 3 + 1] = middle;
    to[place * 3 + 2] = high;
}

/// Appends what follows the samples of `frames` frames of 1 to 6 channels, each sample of `width` bits, 16 or 24: one
/// zero byte if the samples take an odd number of bytes, else nothing. After a refused growth `out` is unchanged.
pub fn push_pad(out: &mut Vec<u8>, channels: u16, width: u32, frames: u64) -> Result<(), AllocError>
    ensures ok { OnOk result (out.new.items ≡ out.old.items ++ pad_bytes channels width frames) }
    ensures unchanged { OnErr result (out.new.items ≡ out.old.items) }
{
    if pad_size(channels, width, frames) == 0 {
        return Ok(());
    }
    out.extend_from_slice(&[0])
}

impl WaveSpec {
    /// Appends what follows the samples of `frames` frames, as [`push_pad`] does.
    pub fn push_pad(&self, out: &mut Vec<u8>, frames: u64) -> Result<(), AllocError>
        ensures ok { OnOk result (out.new.items ≡ out.old.items ++ pad_bytes self.now.channels self.now.width frames) }
        ensures unchanged { OnErr result (out.new.items ≡ out.old.items) }
    {
        push_pad(out, self.channels, self.width, frames)
    }
}

// How many bytes follow the samples. The number of data bytes may be too large for a number of 64 bits.
fn pad_size(channels: u16, width: u32, frames: u64) -> u64
    ensures { result ≡ pad_size channels width frames }
{
    let block_align = u64::from(channels) * u64::from(width / 8);
    frames % 2 * block_align % 2
}
