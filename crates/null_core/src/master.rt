//! A master that was read to be compared with a mix.

ghost use Rattle.std.specs.Prelude.{◌≡◌, ◌^◌, ◌≤◌};
ghost use Rattle.dsd_bits.specs.Channels.{count_of};
ghost use Rattle.dsd_bits.specs.Shape.{HasShape};
ghost use Rattle.dsd_bits.specs.Stretches.{silent};
ghost use Rattle.null_core.specs.Masters.{with_bits};

use crate::channel::Channel;
use dsd_bits::Recording;
use std::marker::Model;

/// A master that was read to be compared with a mix: what its file says of it, and the bits of its channels that the
/// takes don't have. Contracts see it as the recording that the file holds.
#[derive(Drop)]
pub struct Master<'a> {
    // The recording without its bits: its channels are empty.
    recording: Recording,
    channels: Vec<Channel<'a>>,
}

impl<'a> Model for Master<'a> {
    ghost use Rattle.dsd_bits.specs.Contents.{Content};
    ghost use Rattle.null_core.specs.Masters.{KeepsMaster, master_content};

    ghost Value = { Content };

    ghost view = { master_content };

    ghost invariant = { KeepsMaster };
}

impl<'a> Master<'a> {
    /// The master of this recording, whose channels are empty, with these channels in their place. It takes no memory.
    ///
    /// With them it obeys the rules of recordings.
    pub(crate) fn new(recording: Recording, channels: Vec<Channel<'a>>) -> Master<'a>
        requires shape { HasShape (with_bits recording channels.items) }
        requires empty { recording ≡ silent (with_bits recording channels.items) }
        ensures { result ≡ with_bits recording channels.entry.items }
    {
        Master {
            recording,
            channels,
        }
    }

    /// The recording without its bits: its channels are empty.
    pub(crate) fn recording(&self) -> &Recording
        ensures { result.now ≡ silent self.now }
    {
        &self.recording
    }

    /// The channels, in the order of the file.
    pub(crate) fn channels(&self) -> &[Channel<'a>]
        ensures { result.now ≡ (self.now).channels }
    {
        let channels = self.channels.as_slice();
        channels
    }

    /// How many bits each channel has.
    pub(crate) fn count(&self) -> usize
        ensures value { result ≡ count_of (self.now).channels }
        ensures in_limit { result ≤ 2 ^ 36 }
    {
        self.channels[0].len()
    }
}
