//! The sound of a master, compared with the cues while it is read.

ghost use Rattle.std.specs.Prelude.{◌≡◌, IfOk, false, length, replicate, true};
ghost use Rattle.cut_core.specs.Cuts.{take_channels};
ghost use Rattle.judge_core.specs.Auditing.{AreParts, HasMeasure, FindMoreOff};

use crate::cueing::first_off_so_far;
use cut_core::Cut;
use dsd_bits::{BitRange, Bits, Sound};
use interleave_core::unlace;
use sound_core::{Keeper, SoundPart, SoundSink, StreamFault};
use std::alloc::{AllocError, Global};

/// What is found in the sound of a master, which comes a few groups of blocks at a time.
#[derive(Drop)]
pub(crate) struct Auditor<'a> {
    /// The cut whose master the sound should be.
    pub(crate) cut: &'a Cut,
    /// What is kept of the sound: the bits of the bridges.
    pub(crate) keeper: Keeper<'a>,
    /// For each channel the first place so far whose bit isn't that of the cue there. It is meaningful only if the
    /// sound has as many channels and bits as the master.
    pub(crate) firsts: Vec<Option<usize>>,
}

impl<'a> Auditor<'a> {
    ghost use Rattle.std.specs.Prelude.{◌≡◌};

    /// An auditor for a cut whose bridges are in these ranges, before any sound.
    pub(crate) fn new(alloc: Global, cut: &'a Cut, ranges: &'a [BitRange]) -> Auditor<'a>
        ensures cut { result.cut.now ≡ cut.now }
        ensures ranges { result.keeper.ranges.now ≡ ranges.now }
    {
        Auditor {
            cut,
            keeper: Keeper::new(alloc, ranges),
            firsts: Vec::new(alloc),
        }
    }
}

impl<'a> SoundSink for Auditor<'a> {
    ghost use Rattle.std.specs.Prelude.{◌≡◌, ⊤};
    ghost use Rattle.sound_core.specs.declared.fault.StreamFault.TheVariants.{Memory};
    ghost use Rattle.judge_core.specs.Auditing.{IsAuditing};

    ghost ready = { λ a. ⊤ };

    ghost has = { λ first a s done bytes. IsAuditing first a s done bytes };

    ghost refused = { λ first a s came f. f ≡ Memory };

    fn begin(&mut self, alloc: Global, sound: Sound) -> Result<(), StreamFault> {
        self.keeper.begin(alloc, sound)?;
        let firsts = no_firsts(alloc, self.cut.channel_number())?;
        self.firsts = firsts;
        Ok(())
    }

    fn take(&mut self, alloc: Global, part: SoundPart, bytes: &[u8]) -> Result<(), StreamFault> {
        self.keeper.take(alloc, part, bytes)?;
        if has_measure(self.cut, &part.sound) {
            let parts = unlace(alloc, bytes, part.stretch(), part.sound.interleaving)?;
            note_firsts(&mut self.firsts, self.cut, part.done, &parts);
        }
        Ok(())
    }
}

// Whether a sound has as many channels as the master, and each as many bits.
fn has_measure(cut: &Cut, sound: &Sound) -> bool
    ensures yes { result ≡ true → HasMeasure cut.now sound.now }
    ensures no { result ≡ false → HasMeasure cut.now sound.now → ⊥ }
{
    sound.channels == cut.channel_number() && sound.count == cut.length()
}

// For each of `number` channels, that no place was found.
fn no_firsts(alloc: Global, channels: usize) -> Result<Vec<Option<usize>>, AllocError>
    ensures { IfOk result (λ made. made.items ≡ replicate channels None) }
{
    vec![in alloc; None; channels]
}

// Records for each channel the first place whose bit isn't that of the cue there, after these parts of them came. The
// parts follow `done` bits.
fn note_firsts(firsts: &mut [Option<usize>], cut: &Cut, done: usize, parts: &[Bits])
    requires number { length firsts.old ≡ take_channels cut.now }
    requires parts { AreParts cut.now done parts.now }
    ensures { FindMoreOff cut.now done parts.now firsts.old firsts.new }
{
    for c in 0..firsts.len() {
        firsts[c] = first_off_so_far(cut, c, done, &parts[c], firsts[c]);
    }
}
