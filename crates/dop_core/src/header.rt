//! What is before the samples of a WAVE file, and after them.

ghost use Rattle.std.specs.Prelude.{◌≡◌, ◌/◌, ◌≤◌, ◌^◌, ◌++◌, IfErr, OnOk, drop, length};
ghost use Rattle.dsd_bits.specs.Sounds.{IsSound};
ghost use Rattle.wave_core.specs.Contents as contents;
ghost use Rattle.wave_core.specs.Texts.{riff_head};
ghost use Rattle.dop_core.specs.Sinks.{head_of_sound};
ghost use Rattle.dop_core.specs.Writing as Writing;
ghost use Rattle.dop_core.specs.Writing.{FitsDop, count_chunk, dop_file_size, dop_riff_size, dop_tail};

use chunk_core::{Order, push_u32, push_u64};
use dsd_bits::Sound;
use std::alloc::{AllocError, Global};
use wave_core::{WaveFault, WaveSpec};

// The greatest size that a chunk can have.
const LARGEST_SIZE: u64 = 0xffff_ffff;

// How many bytes the header of the RIFF chunk has, with its type.
const RIFF_HEAD: usize = 12;

// How many frames a sound has.
fn frames_of(sound: &Sound) -> u64
    requires { IsSound sound.now }
    ensures value { result ≡ Writing.frames_of sound.now.count }
    ensures few { result ≤ 2 ^ 36 }
{
    sound.count.div_ceil(16) as u64
}

// What the WAVE file of a sound says.
fn spec_of(sound: &Sound) -> WaveSpec
    requires { IsSound sound.now }
    ensures { result ≡ contents.spec_of sound.now.channels (sound.now.rate / 16) 24 }
{
    WaveSpec::new(sound.channels as u16, sound.rate / 16, 24)
}

// The size of the chunk that says how many bits there are.
fn count_size(count: usize) -> u64
    ensures value { result ≡ Writing.count_size count }
    ensures few { result ≤ 16 }
{
    if count % 16 == 0 { 0 } else { 16 }
}

/// How many bytes the WAVE file of a sound has.
pub(crate) fn file_size(sound: &Sound) -> u64
    requires { IsSound sound.now }
    ensures { result ≡ dop_file_size sound.now.channels sound.now.count }
{
    spec_of(sound).file_size(frames_of(sound)) + count_size(sound.count)
}

/// Appends what is before the samples of a sound.
///
/// Refusals, in this order: `TooLarge` if the size of the RIFF chunk would not fit 32 bits, `Memory`.
pub(crate) fn push_head(alloc: Global, out: &mut Vec<u8>, sound: &Sound) -> Result<(), WaveFault>
    requires { IsSound sound.now }
    ensures ok { OnOk result (out.new.items ≡ out.old.items ++ head_of_sound sound.now) }
    ensures fits { OnOk result (FitsDop sound.now.channels sound.now.count) }
    ensures too_large { IfErr result (λ f. f ≡ WaveFault.TooLarge
        → 2 ^ 32 ≤ dop_riff_size sound.now.channels sound.now.count) }
{
    let size = file_size(sound) - 8;
    if size > LARGEST_SIZE {
        return Err(WaveFault::TooLarge);
    }
    let mut header = Vec::new(alloc);
    spec_of(sound).push_header(&mut header, frames_of(sound))?;
    push_sized(out, size as u32, &header)?;
    Ok(())
}

// Appends a header with another size of the RIFF chunk.
fn push_sized(out: &mut Vec<u8>, size: u32, header: &[u8]) -> Result<(), AllocError>
    requires { 12 ≤ length header.now }
    ensures { OnOk result (out.new.items ≡ out.old.items ++ (riff_head size ++ drop 12 header.now)) }
{
    let (_, rest) = header.split_at(RIFF_HEAD);
    out.extend_from_slice(b"RIFF")?;
    push_u32(out, Order::Little, size)?;
    out.extend_from_slice(b"WAVE")?;
    out.extend_from_slice(rest)?;
    Ok(())
}

/// Appends what is after the samples of a sound: the pad, and how many bits there are, if they don't fill the last frame.
pub(crate) fn push_tail(out: &mut Vec<u8>, sound: &Sound) -> Result<(), AllocError>
    requires { IsSound sound.now }
    ensures { OnOk result (out.new.items ≡ out.old.items ++ dop_tail sound.now.channels sound.now.count) }
{
    spec_of(sound).push_pad(out, frames_of(sound))?;
    push_count(out, sound.count)
}

// Appends how many bits there are, if they don't fill the last frame.
fn push_count(out: &mut Vec<u8>, count: usize) -> Result<(), AllocError>
    ensures { OnOk result (out.new.items ≡ out.old.items ++ count_chunk count) }
{
    if count % 16 == 0 {
        return Ok(());
    }
    out.extend_from_slice(b"DoPn")?;
    push_u32(out, Order::Little, 8)?;
    push_u64(out, Order::Little, count as u64)?;
    Ok(())
}
