//! The channels of a master, filled while its sound is read.

ghost use Rattle.std.specs.Prelude.{◌≡◌, ◌≤◌, [], Bool, List, ℕ, IfOk, OnOk, false, length, replicate, true};
ghost use Rattle.null_core.specs.Filling.{AreLonger, HasMeasure};
ghost use Rattle.null_core.specs.Reading.{channels_of};
ghost use Rattle.sound_core.specs.Stretches.{IsRoomy};

use crate::channel::Channel;
use crate::mixed::Mixed;
use crate::part::Part;
use dsd_bits::{Bits, Sound};
use interleave_core::unlace;
use sound_core::{SoundPart, SoundSink, StreamFault};
use std::alloc::{AllocError, Global};

/// The channels of a master's sound, which comes a few groups of blocks at a time. There are none if the sound hasn't the
/// sample rate, the number of channels and the length that the mix asks for.
#[derive(Drop)]
pub(crate) struct Filler<'a> {
    /// The mix with which the master is compared.
    pub(crate) mixed: &'a Mixed,
    /// For each channel the clips as it has them.
    pub(crate) parts: Vec<Vec<Part<'a>>>,
    /// For each channel the bits that came so far.
    pub(crate) channels: Vec<Channel<'a>>,
}

impl<'a> Filler<'a> {
    ghost use Rattle.std.specs.Prelude.{◌≡◌};

    /// A filler for a mix, before any sound.
    pub(crate) fn new(alloc: Global, mixed: &'a Mixed) -> Filler<'a>
        ensures { result.mixed.now ≡ mixed.now }
    {
        Filler {
            mixed,
            parts: Vec::new(alloc),
            channels: Vec::new(alloc),
        }
    }
}

impl<'a> SoundSink for Filler<'a> {
    ghost use Rattle.std.specs.Prelude.{◌≡◌, ⊤};
    ghost use Rattle.sound_core.specs.declared.fault.StreamFault.TheVariants.{Memory};
    ghost use Rattle.null_core.specs.Filling.{IsFilling};

    ghost ready = { λ f. ⊤ };

    ghost has = { λ first f s done bytes. IsFilling first f s done bytes };

    ghost refused = { λ first f s came fault. fault ≡ Memory };

    fn begin(&mut self, alloc: Global, sound: Sound) -> Result<(), StreamFault> {
        if has_measure(self.mixed, &sound) {
            self.parts = all_parts(alloc, self.mixed, sound.channels)?;
            self.channels = no_channels(alloc, sound.channels)?;
        }
        Ok(())
    }

    fn take(&mut self, alloc: Global, part: SoundPart, bytes: &[u8]) -> Result<(), StreamFault> {
        if has_measure(self.mixed, &part.sound) {
            let bits = unlace(alloc, bytes, part.stretch(), part.sound.interleaving)?;
            push_all(alloc, &mut self.channels, &self.parts, &bits)?;
        }
        Ok(())
    }
}

// Whether a sound has the sample rate and the number of channels of the takes, and as many bits in each channel as the
// mix has places.
fn has_measure(mixed: &Mixed, sound: &Sound) -> bool
    ensures yes { result ≡ true → HasMeasure mixed.now sound.now }
    ensures no { result ≡ false → HasMeasure mixed.now sound.now → ⊥ }
{
    let first = mixed.first();
    sound.rate == first.rate()
        && sound.channels == first.channels().len()
        && sound.count == mixed.length()
}

// For each of the first channels the clips as it has them.
fn all_parts<'a>(
    alloc: Global,
    mixed: &'a Mixed,
    number: usize,
) -> Result<Vec<Vec<Part<'a>>>, AllocError>
    requires { number ≤ channels_of mixed.now }
    ensures { IfOk result (λ made. length made.items ≡ number) }
{
    let mut made = Vec::new(alloc);
    for channel in 0..number {
        made.push(mixed.parts(alloc, channel)?)?;
    }
    Ok(made)
}

// Empty channels.
fn no_channels<'a>(alloc: Global, number: usize) -> Result<Vec<Channel<'a>>, AllocError>
    ensures { IfOk result (λ made. made.items ≡ replicate number []) }
{
    let mut made = Vec::new(alloc);
    for _channel in 0..number {
        made.push(Channel::new(alloc))?;
    }
    Ok(made)
}

// Adds to each channel the bits that came of it.
fn push_all<'a>(
    alloc: Global,
    channels: &mut [Channel<'a>],
    parts: &[Vec<Part<'a>>],
    bits: &[Bits],
) -> Result<(), AllocError>
    requires parts { length parts.now ≡ length channels.old }
    requires room { IsRoomy bits.now channels.old }
    ensures { OnOk result (AreLonger bits.now channels.old channels.new) }
{
    for (c, channel) in channels.iter_mut().enumerate() {
        channel.push(alloc, &parts[c], &bits[c])?;
    }
    Ok(())
}
