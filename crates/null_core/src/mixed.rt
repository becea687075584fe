//! A mix with what it reads of its takes.

ghost use Rattle.std.specs.Prelude.{◌≡◌, ◌-◌, ◌^◌, ◌<◌, ◌≤◌, ◌<ℤ◌, All, IfErr, IfOk, length, map, pos};
ghost use Rattle.clip_core.specs.Contents.{mix_content};
ghost use Rattle.clip_core.specs.Mixes as mixes;
ghost use Rattle.clip_core.specs.Mixes.{AreTaps};
ghost use Rattle.cut_core.specs.Excerpts.{excerpts_at, excerpts_content};
ghost use Rattle.null_core.specs.Asking.{IsFullScale};
ghost use Rattle.null_core.specs.Holding.{excerpts_of};
ghost use Rattle.null_core.specs.Judging.{judged_items};
ghost use Rattle.null_core.specs.Parts.{IsPart, part_content};
ghost use Rattle.null_core.specs.Reading.{AreOfTakes, ArePartsOf, IsFaultOfTakes, JudgesChannelOf, TakesFit, channels_of, mixed_of};

use crate::asked::Asked;
use crate::channel::Channel;
use crate::channels::parts_of;
use crate::fault::MixedFault;
use crate::fitting::{fits, take_at};
use crate::judging::judge_channel;
use crate::part::Part;
use crate::ranges::ranges_of;
use crate::stretch::Stretch;
use crate::watch::Watch;
use clip_core::{Mix, mix_length, total};
use cut_core::Excerpts;
use dsd_bits::{Bits, Recording, stretches_of};
use heard_core::{Audible, Decoder};
use std::alloc::{AllocError, Global};
use std::marker::Model;

/// What a mix reads of a recording, its take of a number. Err is out of memory.
pub fn take_excerpts(
    alloc: Global,
    mix: &Mix,
    number: usize,
    recording: Recording,
) -> Result<Excerpts, AllocError>
    ensures { IfOk result (λ h. excerpts_content h ≡ excerpts_of (mix_content mix.now) number recording) }
{
    let stretches = stretches_read(alloc, mix, number, &recording)?;
    let count = recording.count();
    match recording.into_silent(alloc) {
        Ok(recording) => Ok(Excerpts {
            recording,
            count,
            stretches,
        }),
        Err(fault) => Err(fault),
    }
}

// The bits that a mix reads of a recording, its take of a number.
fn stretches_read(
    alloc: Global,
    mix: &Mix,
    number: usize,
    recording: &Recording,
) -> Result<Vec<Vec<Bits>>, AllocError>
    ensures { IfOk result (λ made. map (λ stretch. stretch.items) made.items ≡ (excerpts_of (mix_content mix.now) number recording.now).stretches) }
{
    let ranges = ranges_of(alloc, mix, number)?;
    stretches_of(alloc, recording.channels(), &ranges)
}

/// A mix with what it reads of its takes, ready to be compared with a master. The takes have the same sample rate and
/// number of channels, each clip ends within its take, and gains that are given for each channel are given for as many
/// as the takes have. Of the takes it holds the bits of the clips, and those around them that their decoders reach.
#[derive(Drop)]
pub struct Mixed {
    mix: Mix,
    takes: Vec<Excerpts>,
    decoders: Vec<Decoder>,
    audible: Audible,
}

// The low-passes of a mix.
#[derive(Drop)]
struct LowPasses {
    // That of each list of taps.
    decoders: Vec<Decoder>,
    // That which passes what can be heard.
    audible: Audible,
}

impl Model for Mixed {
    ghost use Rattle.null_core.specs.Reading.{MixedContent};
    ghost use Rattle.null_core.specs.View.{KeepsMixed, mixed_content};

    ghost Value = { MixedContent };

    ghost view = { mixed_content };

    ghost invariant = { KeepsMixed };
}

impl Mixed {
    /// A mix with what it reads of its takes, in the order of their numbers.
    ///
    /// Refusals, in this order: `TakeMismatch` for the first take that isn't like take 0, then by rising clip
    /// `ClipOutside` if it ends after the end of its take, and `ClipGains` if it has gains for another number of
    /// channels than the takes have. Whenever memory runs out it is `Memory`.
    pub fn of(alloc: Global, mix: Mix, takes: Vec<Excerpts>) -> Result<Mixed, MixedFault>
        requires { AreOfTakes (mix_content mix) takes.items }
        ensures made { IfOk result (λ made. made ≡ mixed_of (mix_content mix) takes.items) }
        // Whichever takes it was read of, they fit, or this is their first fault.
        ensures fit { IfOk result (λ _. TakesFit (mix_content mix) takes.items) }
        ensures fault { IfErr result (IsFaultOfTakes (mix_content mix) takes.items) }
    {
        match low_passes_of(alloc, &mix, &takes) {
            Ok(passes) => Ok(Mixed {
                mix,
                takes,
                decoders: passes.decoders,
                audible: passes.audible,
            }),
            Err(fault) => Err(fault),
        }
    }

    /// The clips as a channel has them, in their order. Of its take each has the bits that were read for it, or for a
    /// clip before it that needs these too. Err is out of memory.
    pub fn parts(&self, alloc: Global, channel: usize) -> Result<Vec<Part<'_>>, AllocError>
        requires { channel < channels_of self.now }
        ensures parts { IfOk result (λ parts. ArePartsOf self.now channel (map part_content parts.items)) }
        ensures fit { IfOk result (λ parts. All IsPart (map part_content parts.items)) }
    {
        parts_of(alloc, &self.mix, &self.takes, &self.decoders, channel)
    }

    /// The stretches of a channel of a master, or the first place that is too loud, as [`judge_channel`] finds them. Err
    /// is out of memory.
    pub fn judge_channel<W: Watch>(
        &self,
        alloc: Global,
        channel: usize,
        bits: &Channel<'_>,
        watch: &W,
    ) -> Result<Result<Vec<Stretch>, usize>, AllocError>
        requires { channel < channels_of self.now }
        ensures { IfOk result (λ found. JudgesChannelOf self.now channel bits.now (judged_items found)) }
    {
        let parts = self.parts(alloc, channel)?;
        let asked = Asked {
            unit: self.mix.unit,
            audible: &self.audible,
            every: self.mix.every,
            parts: &parts,
        };
        judge_channel(alloc, asked, bits, watch)
    }

    /// The first take without its bits: a master has its sample rate and number of channels.
    pub fn first(&self) -> &Recording
        ensures { result.now ≡ (excerpts_at self.now.read 0).recording }
    {
        &take_at(&self.takes, 0).recording
    }

    /// How many bits each channel of a master has: up to the last end of a clip.
    pub fn length(&self) -> usize
        ensures value { result ≡ mixes.mix_length self.now.mix.clips }
        ensures bound { result ≤ 2 ^ 36 }
    {
        mix_length(&self.mix.clips)
    }

    /// Full scale of residuals: twice the mix's unit times the sum of the taps of what can be heard.
    pub fn full_scale(&self) -> u64
        ensures value { IsFullScale (self.now).mix result }
        ensures some { 1 ≤ result }
        ensures bound { result < 2 ^ 60 }
    {
        2 * u64::from(self.mix.unit) * tap_sum(&self.mix.audible)
    }

    /// The greatest residual that is accepted, below `2^63`.
    pub fn limit(&self) -> u64
        ensures { result ≡ self.now.mix.limit }
    {
        self.mix.limit
    }
}

// The sum of the taps of what can be heard.
fn tap_sum(taps: &[i32]) -> u64
    requires fit { AreTaps (2 ^ 31 - 1) taps.now }
    requires more { pos 0 <ℤ mixes.total taps.now }
    ensures value { pos result ≡ mixes.total taps.now }
    ensures some { 1 ≤ result }
    ensures bound { result < 2 ^ 31 }
{
    total(taps).unsigned_abs()
}

// The low-passes of a mix, if its takes fit it.
fn low_passes_of(alloc: Global, mix: &Mix, takes: &[Excerpts]) -> Result<LowPasses, MixedFault>
    requires { length takes.now ≡ length (mix_content mix.now).takes }
    ensures decoders { IfOk result (λ passes. passes.decoders.items ≡ (mix_content mix.now).decoders) }
    ensures audible { IfOk result (λ passes. passes.audible ≡ (mix_content mix.now).audible) }
    ensures fit { IfOk result (λ _. TakesFit (mix_content mix.now) takes.now) }
    ensures fault { IfErr result (IsFaultOfTakes (mix_content mix.now) takes.now) }
{
    fits(mix, takes)?;
    let decoders = decoders_of(alloc, &mix.decoders)?;
    let audible = Audible::new(alloc, &mix.audible)?;
    Ok(LowPasses { decoders, audible })
}

// The decoder of each list of taps.
fn decoders_of(alloc: Global, lists: &[Vec<i32>]) -> Result<Vec<Decoder>, AllocError>
    requires { All (AreTaps (2 ^ 28)) (map (λ taps. taps.items) lists.now) }
    ensures { IfOk result (λ made. made.items ≡ map (λ taps. taps.items) lists.now) }
{
    let mut made = Vec::new(alloc);
    for taps in lists {
        made.push(Decoder::new(alloc, taps)?)?;
    }
    Ok(made)
}
