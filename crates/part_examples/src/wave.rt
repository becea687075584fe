//! RIFF WAVE files byte by byte, and the limits of sizes.

ghost use Rattle.wave_core.specs.Contents.{IsPcm, IsWidth, pcm_of};

use crate::fixtures::compared::equal;
use crate::fixtures::files::WAVE;
use crate::fixtures::waves::{
    FIVE_CHANNELS, FOUR_CHANNELS, SIX_CHANNELS, THREE_CHANNELS, TWO_CHANNELS, WIDE,
};
use std::alloc::{AllocError, Global};
use std::test::Fail;
use wave_core::{Pcm, WaveFault, push_frames, push_header, push_pad, push_sample, write};

// Whether these samples are written as this file.
fn writes(alloc: Global, pcm: Result<Pcm, AllocError>, file: &[u8]) -> Result<bool, WaveFault> {
    let written = write(alloc, &pcm?)?;
    Ok(equal(&written, file))
}

// `channels` channels of these samples.
fn pcm(alloc: Global, channels: u16, width: u32, samples: &[i32]) -> Result<Pcm, AllocError>
    requires { IsPcm (pcm_of channels 352800 width samples.now) }
{
    Ok(Pcm::new(channels, 352_800, width, samples.to_vec(alloc)?))
}

#[test]
fn writes_samples(rt: HostRuntime) -> Result<(), Fail> {
    let alloc = rt.alloc();
    let one = pcm(alloc, 1, 16, &[10]);
    assert!(rt; writes(alloc, one, &WAVE)?, "one channel");
    let wide = pcm(alloc, 1, 24, &[10]);
    assert!(rt; writes(alloc, wide, &WIDE)?, "24 bits");
    let two = pcm(alloc, 2, 16, &[10, -10]);
    assert!(rt; writes(alloc, two, &TWO_CHANNELS)?, "two channels");
    Ok(())
}

#[test]
fn writes_more_channels(rt: HostRuntime) -> Result<(), Fail> {
    let alloc = rt.alloc();
    let three = pcm(alloc, 3, 16, &[10, -10, 10]);
    assert!(rt; writes(alloc, three, &THREE_CHANNELS)?, "three");
    let four = pcm(alloc, 4, 16, &[10, -10, 10, -10]);
    assert!(rt; writes(alloc, four, &FOUR_CHANNELS)?, "four");
    let five = pcm(alloc, 5, 16, &[10, -10, 10, -10, 10]);
    assert!(rt; writes(alloc, five, &FIVE_CHANNELS)?, "five");
    let six = pcm(alloc, 6, 16, &[10, -10, 10, -10, 10, -10]);
    assert!(rt; writes(alloc, six, &SIX_CHANNELS)?, "six");
    Ok(())
}

// What writing a header of one channel returns, and how many bytes there are then.
fn header(out: &mut Vec<u8>, width: u32, frames: u64) -> (Result<(), WaveFault>, usize)
    requires { IsWidth width }
{
    let answer = push_header(out, 1, 352_800, width, frames);
    (answer, out.len())
}

const TOO_LARGE: Result<(), WaveFault> = Err(WaveFault::TooLarge);

#[test]
fn fills_a_riff_chunk(rt: HostRuntime) {
    let mut out = Vec::new(rt.alloc());
    assert!(rt; header(&mut out, 16, 2_147_483_629) == (Ok(()), 44));
    assert!(rt; out.starts_with(b"RIFF\xfe\xff\xff\xff"));
    assert!(rt; header(&mut out, 16, 2_147_483_630) == (TOO_LARGE, 44));
}

// The second form has 24 more bytes, so its longest file has fewer frames.
#[test]
fn fills_a_riff_chunk_of_24_bits(rt: HostRuntime) {
    let mut out = Vec::new(rt.alloc());
    assert!(rt; header(&mut out, 24, 1_431_655_744) == (Ok(()), 68));
    assert!(rt; out.starts_with(b"RIFF\xfc\xff\xff\xff"));
    assert!(rt; header(&mut out, 24, 1_431_655_745) == (TOO_LARGE, 68));
}

// Appends a header, a sample of 16 bits, one of 24, two frames of two channels that are given one after the other, a
// pad, and no pad.
fn push_parts(out: &mut Vec<u8>) -> Result<(), WaveFault> {
    push_header(out, 1, 352_800, 16, 1)?;
    push_sample(out, 16, -2)?;
    push_sample(out, 24, -2)?;
    push_frames(out, 16, &[1, -2, 3, 4], 2)?;
    push_pad(out, 1, 24, 1)?;
    Ok(push_pad(out, 1, 16, 1)?)
}

// Whether these bytes are what is appended after a header of 44 bytes.
fn appends(alloc: Global, parts: &[u8]) -> Result<bool, WaveFault> {
    let mut out = Vec::new(alloc);
    push_parts(&mut out)?;
    let (header, rest) = out.split_at(out.len().min(44));
    Ok(WAVE.starts_with(header) && equal(rest, parts))
}

#[test]
fn spells_the_parts_of_a_file(rt: HostRuntime) -> Result<(), Fail> {
    let parts = b"\xfe\xff\xfe\xff\xff\x01\0\x03\0\xfe\xff\x04\0\0";
    assert!(rt; appends(rt.alloc(), parts)?);
    Ok(())
}
