//! A recording: its description, and its channels.

ghost use Rattle.std.specs.Prelude.{◌≡◌, ◌≤◌, [], IfOk, length, map, replicate};
ghost use Rattle.dsd_bits.specs.Channels.{count_of};
ghost use Rattle.dsd_bits.specs.Contents.{described, mark_content, other_content, with_channels};
ghost use Rattle.dsd_bits.specs.Limits.{IsRate, most_bits};
ghost use Rattle.dsd_bits.specs.Shape.{AreDescribed, HasShape};
ghost use Rattle.dsd_bits.specs.Stretches.{silent};

use crate::bits::Bits;
use crate::description::Description;
use crate::marks::{Mark, Other};
use crate::stretches::silent_channels;
use std::alloc::{AllocError, Global};
use std::marker::Model;

/// A recording of one to six channels of equal length. Contracts see it as one record of lists and numbers, `Content`,
/// which obeys the rules of `HasShape`.
#[derive(Drop)]
pub struct Recording {
    description: Description,
    channels: Vec<Bits>,
}

impl Model for Recording {
    ghost use Rattle.dsd_bits.specs.Contents.{Content, with_channels};
    ghost use Rattle.dsd_bits.specs.Shape.{AreDescribed};

    ghost Value = { Content };

    ghost view = { λ a. with_channels a.description a.channels.items };

    ghost invariant = { λ a. AreDescribed a.description a.channels.items };
}

impl Recording {
    /// The recording of this description with these channels, which are moved into it. It takes no memory.
    ///
    /// There are as many channels as the description has IDs, and each has as many bits as it says.
    pub fn new(description: Description, channels: Vec<Bits>) -> Recording
        requires { AreDescribed description channels.items }
        ensures { result ≡ with_channels description channels.items }
    {
        Recording {
            description,
            channels,
        }
    }

    /// The recording without its bits.
    pub fn description(&self) -> &Description
        ensures { result.now ≡ described self.now }
    {
        let description = &self.description;
        description
    }

    /// The recording without its bits, whose memory is freed.
    pub fn into_description(self) -> Description
        ensures { result ≡ described self }
    {
        self.description
    }

    /// The same recording without its bits: its channels are empty. Err is out of memory.
    pub fn into_silent(self, alloc: Global) -> Result<Recording, AllocError>
        ensures { IfOk result (λ r. r ≡ silent self) }
    {
        Recording::silent(alloc, self.description)
    }

    /// A recording of this description, but with empty channels. Err is out of memory.
    pub fn silent(alloc: Global, description: Description) -> Result<Recording, AllocError>
        ensures { IfOk result (λ r. r ≡ with_channels description (replicate (length description.ids) [])) }
    {
        let channels = silent_channels(alloc, description.ids().len())?;
        let description = description.with_count(0);
        Ok(Recording {
            description,
            channels,
        })
    }

    /// Bits per second of each channel, in hertz.
    pub fn rate(&self) -> u32
        ensures value { result ≡ self.now.rate }
        ensures in_limits { IsRate result }
    {
        self.description.rate()
    }

    /// The channels, in the order of their IDs.
    pub fn channels(&self) -> &[Bits]
        ensures value { result.now ≡ self.now.channels }
        ensures shape { HasShape self.now }
    {
        // Borrowed, so that the description's own shape is known.
        let _shape = self.description.ids();
        let channels = self.channels.as_slice();
        channels
    }

    /// How many bits each channel has.
    pub fn count(&self) -> usize
        ensures value { result ≡ count_of self.now.channels }
        ensures in_limit { result ≤ most_bits }
    {
        self.description.count()
    }

    /// The ID of each channel, as in DSDIFF 1.5.
    pub fn ids(&self) -> &[[u8; 4]]
        ensures { result.now ≡ self.now.ids }
    {
        self.description.ids()
    }

    /// The layout of the channels, which is a channel type of DSF 1.01.
    pub fn layout(&self) -> u32
        ensures { result ≡ self.now.layout }
    {
        self.description.layout()
    }

    /// The marks, in the order of the file.
    pub fn marks(&self) -> &[Mark]
        ensures { map mark_content result.now ≡ self.now.marks }
    {
        self.description.marks()
    }

    /// The chunks that are kept as their bytes, in the order of [`crate::Place`].
    pub fn others(&self) -> &[Other]
        ensures { map other_content result.now ≡ self.now.others }
    {
        self.description.others()
    }

    /// The bytes after the sound of a DSF 1.01 file, such as an ID3 tag.
    pub fn tag(&self) -> &[u8]
        ensures { result.now ≡ self.now.tag }
    {
        self.description.tag()
    }
}
