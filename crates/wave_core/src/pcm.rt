//! Samples with the numbers that describe them.

ghost use Rattle.std.specs.Prelude.{◌≡◌};
ghost use Rattle.wave_core.specs.Contents.{IsPcm, pcm_of};

use crate::spec::WaveSpec;
use std::marker::Model;

/// Integer samples (pulse code modulation) of one to six channels: their rate in frames per second, their width in
/// bits, and the values. These are frame by frame; each frame has one sample of each channel in order. Contracts see it
/// as one record of numbers and a list, which obeys the rules of `IsPcm`.
#[derive(Drop)]
pub struct Pcm {
    pub(crate) spec: WaveSpec,
    pub(crate) samples: Vec<i32>,
}

impl Model for Pcm {
    ghost use Rattle.wave_core.specs.Contents.{IsPcm, Pcm, pcm_of};

    ghost Value = { Pcm };

    ghost view = { λ a. pcm_of a.spec.channels a.spec.rate a.spec.width a.samples.items };

    ghost invariant = { λ a. IsPcm (pcm_of a.spec.channels a.spec.rate a.spec.width a.samples.items) };
}

impl Pcm {
    /// The samples of these parts, which are moved into it. It takes no memory.
    ///
    /// There are 1 to 6 channels, the rate is 1 to 6,250,000 frames per second, and a sample has 16 or 24 bits. The
    /// samples are whole frames, and each is in the range of its width: -32,768 to 32,767, or -8,388,608 to 8,388,607.
    pub fn new(channels: u16, rate: u32, width: u32, samples: Vec<i32>) -> Pcm
        requires parts { IsPcm (pcm_of channels rate width samples.items) }
        ensures parts { result ≡ pcm_of channels rate width samples.items }
    {
        Pcm {
            spec: WaveSpec::new(channels, rate, width),
            samples,
        }
    }
}
