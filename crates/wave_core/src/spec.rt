//! What a WAVE file says about its samples.

ghost use Rattle.std.specs.Prelude.{◌≡◌, ◌+◌, ◌≤◌, ◌^◌};
ghost use Rattle.wave_core.specs.Contents.{IsWaveSpec, spec_of};
ghost use Rattle.wave_core.specs.Heads.{file_size_in};
ghost use Rattle.wave_core.specs.Sizes as sizes;
ghost use Rattle.wave_core.specs.Texts.{format_tag};

use crate::head::WaveHead;
use std::marker::Model;

/// What a WAVE file says about its samples: the channels of a frame, 1 to 6, the frames per second, 1 to 6,250,000, and
/// the bits of a sample, 16 or 24. Contracts see it as one record of numbers, which obeys the rules of `IsWaveSpec`.
#[derive(Drop)]
pub struct WaveSpec {
    pub(crate) channels: u16,
    pub(crate) rate: u32,
    pub(crate) width: u32,
}

impl Model for WaveSpec {
    ghost use Rattle.wave_core.specs.Contents.{IsWaveSpec, WaveSpec, spec_of};

    ghost Value = { WaveSpec };

    ghost view = { λ a. spec_of a.channels a.rate a.width };

    ghost invariant = { λ a. IsWaveSpec (spec_of a.channels a.rate a.width) };
}

impl WaveSpec {
    /// The description with these numbers: 1 to 6 channels, 1 to 6,250,000 frames per second, and samples of 16 or 24
    /// bits.
    pub fn new(channels: u16, rate: u32, width: u32) -> WaveSpec
        requires limits { IsWaveSpec (spec_of channels rate width) }
        ensures numbers { result ≡ spec_of channels rate width }
    {
        WaveSpec {
            channels,
            rate,
            width,
        }
    }

    /// How many bytes come before the samples: 44, or 68 for 24 bits or more than two channels.
    pub fn header_size(&self) -> u64
        ensures { result ≡ sizes.header_size self.now.channels self.now.width }
    {
        28 + u64::from(self.format_size())
    }

    /// How many bytes the file of `frames` frames has, at most `2^36` frames.
    pub fn file_size(&self, frames: u64) -> u64
        requires { frames ≤ 2 ^ 36 }
        ensures { result ≡ sizes.file_size self.now.channels self.now.width frames }
    {
        let data = frames * u64::from(self.block_align());
        self.header_size() + data + data % 2
    }

    /// How many bytes it has if its header is written so.
    pub fn file_size_as(&self, head: WaveHead, frames: u64) -> u64
        requires { frames ≤ 2 ^ 36 }
        ensures { result ≡ file_size_in head self.now.channels self.now.width frames }
    {
        let data = frames * u64::from(self.block_align());
        let room = if head.is_wide { 36 } else { 0 };
        room + self.header_size() + data + data % 2
    }

    // How many bytes of data the format chunk has.
    pub(crate) fn format_size(&self) -> u32
        ensures size { result ≡ sizes.format_size self.now.channels self.now.width }
        ensures few { result ≤ 40 }
    {
        if self.is_extensible() { 40 } else { 16 }
    }

    // Whether the format chunk has its second, longer form.
    pub(crate) fn is_extensible(&self) -> bool
        ensures { result ≡ sizes.is_extensible self.now.channels self.now.width }
    {
        self.width == 24 || self.channels > 2
    }

    // The tag of the format chunk: that of its second form (WAVE_FORMAT_EXTENSIBLE), or that of integer samples.
    pub(crate) fn format_tag(&self) -> u16
        ensures { result ≡ format_tag self.now.channels self.now.width }
    {
        if self.is_extensible() { 0xfffe } else { 1 }
    }

    // The bytes of a frame.
    pub(crate) fn block_align(&self) -> u16
        ensures limits { IsWaveSpec self.now }
        ensures value { result ≡ sizes.block_align self.now.channels self.now.width }
        ensures few { result ≤ 18 }
    {
        self.channels * (self.width / 8) as u16
    }
}
