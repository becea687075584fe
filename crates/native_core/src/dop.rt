//! Samples of DoP 1.1.

ghost use Rattle.std.specs.Prelude.{◌≡◌, ◌+◌, ◌*◌, ◌/◌, ◌<◌, ◌≤◌, ◌++◌, [], ◌∷◌, ℕ, OnOk, length, take};
ghost use Rattle.std.specs.List.{flat_map, range_with_len};
ghost use Rattle.native_core.specs.Native.{dop_sample, dop_samples, marker};

use std::alloc::AllocError;

// The highest bytes of the samples of a frame: of frame 0, 2, 4 and so on, and of the others.
const EVEN: u8 = 0x05;

const ODD: u8 = 0xfa;

/// Appends the DoP samples of interleaved bytes, one byte of each channel in turn: each sample is made of two bytes.
pub(crate) fn push_dop(out: &mut Vec<u8>, bytes: &[u8], channels: usize) -> Result<(), AllocError>
    requires channels { (1 ≤ channels) × (channels ≤ 6) }
    requires whole { (frames : ℕ) × (length bytes.now ≡ 2 * (frames * channels)) }
    ensures { OnOk result (out.new.items ≡ out.old.items ++ dop_samples channels bytes.now) }
{
    let kept = out.len();
    let added = bytes.len() / 2 * 3;
    out.reserve(added)?;
    out.resize(kept + added, 0)?;
    let (_, samples) = out.as_mut_slice().split_at_mut(kept);
    fill(samples, bytes, channels);
    Ok(())
}

// Writes the DoP samples of interleaved bytes.
fn fill(to: &mut [u8], bytes: &[u8], channels: usize)
    requires channels { (1 ≤ channels) × (channels ≤ 6) }
    requires whole { (frames : ℕ) × (length bytes.now ≡ 2 * (frames * channels)) }
    requires size { length to.old ≡ length bytes.now / 2 * 3 }
    ensures { to.new ≡ dop_samples channels bytes.now }
{
    match channels {
        1 => fill_frames::<1>(to, bytes),
        2 => fill_frames::<2>(to, bytes),
        3 => fill_frames::<3>(to, bytes),
        4 => fill_frames::<4>(to, bytes),
        5 => fill_frames::<5>(to, bytes),
        _ => fill_frames::<6>(to, bytes),
    }
}

// The same for a number of channels that is known at compile time: the compiler makes vectors of one and of two.
fn fill_frames<const N: usize>(to: &mut [u8], bytes: &[u8])
    requires number { (1 ≤ N) × (N ≤ 6) }
    requires whole { (frames : ℕ) × (length bytes.now ≡ 2 * (frames * N)) }
    requires size { length to.old ≡ length bytes.now / 2 * 3 }
    ensures { to.new ≡ dop_samples N bytes.now }
{
    for frame in 0..bytes.len() / 2 / N {
        put_frame::<N>(to, bytes, frame, marker_of(frame));
    }
}

// Writes a frame with its marker after those before: a sample of each channel.
#[inline(always)]
fn put_frame<const N: usize>(to: &mut [u8], bytes: &[u8], frame: usize, mark: u8)
    requires number { (1 ≤ N) × (N ≤ 6) }
    requires inside { 2 * (frame * N + N) ≤ length bytes.now }
    requires room { 3 * (frame * N + N) ≤ length to.old }
    requires mark { mark ≡ marker frame }
    ensures size { length to.new ≡ length to.old }
    ensures written { take (3 * (frame * N + N)) to.new ≡ take (3 * (frame * N)) to.old
        ++ flat_map (dop_sample N bytes.now) (range_with_len (frame * N) N) }
{
    let from = 2 * (frame * N);
    for c in 0..N {
        let high = bytes[from + c];
        let low = bytes[from + N + c];
        put_sample(to, frame * N + c, low, high, mark);
    }
}

// Writes a sample after those before.
#[inline(always)]
fn put_sample(to: &mut [u8], place: usize, low: u8, high: u8, mark: u8)
    requires room { 3 * (place + 1) ≤ length to.old }
    ensures size { length to.new ≡ length to.old }
    ensures written { take (3 * (place + 1)) to.new ≡ take (3 * place) to.old ++ low ∷ high ∷ mark ∷ [] }
{
    to[3 * place] = low;
    to[3 * place + 1] = high;
    to[3 * place + 2] = mark;
}

// The marker of a frame.
fn marker_of(frame: usize) -> u8
    ensures { result ≡ marker frame }
{
    if frame % 2 == 0 { EVEN } else { ODD }
}
