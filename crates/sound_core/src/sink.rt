//! What takes a sound while its file is read once.

ghost use Rattle.std.specs.Prelude.{◌≡◌, [], ℕ, List, IfErr, OnOk, length};
ghost use Rattle.dsd_bits.specs.Sounds.{sound_size};
ghost use Rattle.dsd_bits.specs.declared.sound.Sound.{Sound};
ghost use Rattle.sound_core.specs.Faults.{IsSinkFault};
ghost use Rattle.sound_core.specs.Sinks.{HasBefore, HasNext, IsFed, RefusesNext};
ghost use Rattle.sound_core.specs.declared.fault.StreamFault.{StreamFault};

use crate::fault::StreamFault;
use crate::part::SoundPart;
use dsd_bits::Sound;
use std::alloc::Global;

/// A sink that takes a sound while its file is read once, a few groups of blocks after the other.
pub trait SoundSink {
    /// The sink can begin with a sound.
    ghost ready: { Self → Type 0 };

    /// What the first sink became after these bytes of a sound, which are `done` bits of each channel.
    ghost has: { Self → Self → Sound → ℕ → List ℕ → Type 0 };

    /// What the first sink became after it refused a sound that begins with these bytes, for this fault.
    ghost refused: { Self → Self → Sound → List ℕ → StreamFault → Type 0 };

    /// Begins with a sound, before its first byte.
    fn begin(&mut self, alloc: Global, sound: Sound) -> Result<(), StreamFault>
        requires ready { ready self.old }
        requires fed { IsFed sound 0 [] }
        ensures has { OnOk result (has self.old self.new sound 0 []) }
        ensures own { IfErr result IsSinkFault }
        ensures refused { IfErr result (refused self.old self.new sound []) };

    /// Takes the bytes of the next part of the sound.
    fn take(&mut self, alloc: Global, part: SoundPart, bytes: &[u8]) -> Result<(), StreamFault>
        requires fed { HasBefore has part self.old }
        requires size { length bytes.now ≡ sound_size part.sound.interleaving part.sound.channels part.bits }
        ensures has { OnOk result (HasNext has part self.old self.new bytes.now) }
        ensures own { IfErr result IsSinkFault }
        ensures refused { IfErr result (RefusesNext has refused part self.old self.new bytes.now) };
}
