//! A sound part by part.

ghost use Rattle.std.specs.Prelude.{◌≡◌, ◌+◌, ◌%◌, ◌<◌, ◌≤◌};
ghost use Rattle.dsd_bits.specs.Sounds.{IsSound, sound_size};

use dsd_bits::Sound;
use interleave_core::Segment;

/// The next part of a sound: whole groups of blocks, or all the rest, in at most 65,536 bytes.
#[derive(Clone, Copy)]
pub struct SoundPart {
    /// The sound.
    pub sound: Sound,
    /// How many bits of each channel came before.
    pub done: usize,
    /// How many bits of each channel come.
    pub bits: usize,
    pub ghost is_sound: { IsSound sound },
    pub ghost some: { 1 ≤ bits },
    pub ghost within: { done + bits ≤ sound.count },
    pub ghost groups: { done + bits < sound.count → bits % 32768 ≡ 0 },
    pub ghost fits: { sound_size sound.interleaving sound.channels bits ≤ 65536 },
}

impl SoundPart {
    ghost use Rattle.std.specs.Prelude.{◌≡◌};

    /// How much of each channel comes.
    pub fn stretch(&self) -> Segment
        ensures { (result.channels ≡ self.now.sound.channels) × (result.count ≡ self.now.bits) }
    {
        Segment {
            channels: self.sound.channels,
            count: self.bits,
        }
    }
}
