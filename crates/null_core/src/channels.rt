//! The clips of a mix as a channel has them, with the bits that were read for them.

ghost use Rattle.std.specs.Prelude.{◌≡◌, ◌^◌, ◌<◌, ◌≤◌, ◌-ℤ◌, All, IfOk, length, map, pos, unsigned_abs};
ghost use Rattle.clip_core.specs.Contents.{mix_content};
ghost use Rattle.cut_core.specs.Excerpts.{excerpts_content};
ghost use Rattle.null_core.specs.Parts.{IsPart, part_content};
ghost use Rattle.null_core.specs.Reading.{ArePartsOf, HasBits, IsMixed, IsPartOf, bits_at, channels_of, mixed_of};

use crate::fitting::take_at;
use crate::part::Part;
use crate::ranges::{clip_at, clip_range, holder};
use clip_core::Mix;
use cut_core::Excerpts;
use dsd_bits::Bits;
use heard_core::Decoder;
use std::alloc::{AllocError, Global};

/// The clips as a channel has them. Err is out of memory.
pub(crate) fn parts_of<'a>(
    alloc: Global,
    mix: &'a Mix,
    takes: &'a [Excerpts],
    decoders: &'a [Decoder],
    channel: usize,
) -> Result<Vec<Part<'a>>, AllocError>
    requires mixed { IsMixed (mixed_of (mix_content mix.now) takes.now) }
    requires decoders { decoders.now ≡ (mix_content mix.now).decoders }
    requires channel { channel < channels_of (mixed_of (mix_content mix.now) takes.now) }
    ensures parts { IfOk result (λ parts. ArePartsOf (mixed_of (mix_content mix.now) takes.now) channel (map part_content parts.items)) }
    ensures fit { IfOk result (λ parts. All IsPart (map part_content parts.items)) }
{
    let mut parts = Vec::new(alloc);
    for clip in 0..mix.clips.len() {
        parts.push(part_of(mix, takes, decoders, channel, clip))?;
    }
    Ok(parts)
}

// A clip as a channel has it.
fn part_of<'a>(
    mix: &'a Mix,
    takes: &'a [Excerpts],
    decoders: &'a [Decoder],
    channel: usize,
    clip: usize,
) -> Part<'a>
    requires mixed { IsMixed (mixed_of (mix_content mix.now) takes.now) }
    requires decoders { decoders.now ≡ (mix_content mix.now).decoders }
    requires channel { channel < channels_of (mixed_of (mix_content mix.now) takes.now) }
    requires clip { clip < length (mix_content mix.now).clips }
    ensures part { IsPartOf (mixed_of (mix_content mix.now) takes.now) channel clip (part_content result) }
    ensures fits { IsPart (part_content result) }
{
    let here = clip_at(mix, clip);
    let held = holder(mix, clip);
    Part {
        take: here.take,
        ahead: ahead(here.start, here.at),
        at: here.at,
        size: here.length,
        points: here.gains.points(channel),
        decoder: &decoders[here.decoder],
        bits: bits_for(takes, here.take, held, channel),
        start: here.start - clip_range(mix, held).start,
    }
}

// How many bits a take is ahead of the mix if bit `start` is at place `at`.
fn ahead(start: usize, at: usize) -> i64
    requires start { start ≤ 2 ^ 36 }
    requires at { at ≤ 2 ^ 36 }
    ensures value { result ≡ pos start -ℤ pos at }
    ensures bound { unsigned_abs result ≤ 2 ^ 36 }
{
    start as i64 - at as i64
}

// The bits of a channel that were read for a clip from the take of a number.
fn bits_for(takes: &[Excerpts], number: usize, clip: usize, channel: usize) -> &Bits
    requires { HasBits (map excerpts_content takes.now) number clip channel }
    ensures { result.now ≡ bits_at (map excerpts_content takes.now) number clip channel }
{
    &take_at(takes, number).stretches[clip][channel]
}
