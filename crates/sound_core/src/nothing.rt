//! A sound that is read but not kept.

use crate::fault::StreamFault;
use crate::part::SoundPart;
use crate::sink::SoundSink;
use dsd_bits::Sound;
use std::alloc::Global;

/// A sink that keeps nothing of a sound.
#[derive(Drop)]
pub(crate) struct Nothing {}

impl SoundSink for Nothing {
    ghost use Rattle.std.specs.Prelude.{◌≡◌, ⊤};
    ghost use Rattle.sound_core.specs.declared.fault.StreamFault.TheVariants.{Memory};

    ghost ready = { λ k. ⊤ };

    ghost has = { λ first k s done bytes. ⊤ };

    ghost refused = { λ first k s came f. f ≡ Memory };

    fn begin(&mut self, _alloc: Global, _sound: Sound) -> Result<(), StreamFault> {
        Ok(())
    }

    fn take(&mut self, _alloc: Global, _part: SoundPart, _bytes: &[u8]) -> Result<(), StreamFault> {
        Ok(())
    }
}
