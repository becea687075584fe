//! Gives the bits of a recording that comes as a byte of each channel in turn, and whose end isn't known before.

ghost use Rattle.std.specs.Prelude.{◌≡◌, ◌+◌, ◌*◌, ◌≤◌, ◌<◌, ◌^◌, [], IfOk, OnOk, length};
ghost use Rattle.joined_core.specs.Bits.{FinishesBits, HasGivenBits, IsBitGiver, TakesBits};

use dsd_bits::Interleaving;
use interleave_core::Segment;
use native_core::{Layout, push_native};
use std::alloc::{AllocError, Global};

// The bits of each channel in a group.
const GROUP_BITS: usize = 32_768;

// The bytes of each channel in a group.
const GROUP_BYTES: usize = 4096;

/// What gives the bits of a recording.
#[derive(Drop)]
pub struct BitGiver {
    /// How they are given.
    pub(crate) layout: Layout,
    /// How many channels there are.
    pub(crate) channels: usize,
    /// How many bytes came.
    pub(crate) fed: usize,
    /// Those of them that came after the last whole group.
    pub(crate) part: Vec<u8>,
}

impl BitGiver {
    /// Before the first byte.
    pub fn new(alloc: Global, layout: Layout, channels: usize) -> BitGiver
        requires { (1 ≤ channels) × (channels ≤ 6) }
        ensures ready { IsBitGiver result }
        ensures given { HasGivenBits [] [] result }
        ensures same { (result.layout ≡ layout) × (result.channels ≡ channels) }
    {
        BitGiver {
            layout,
            channels,
            fed: 0,
            part: Vec::new(alloc),
        }
    }

    /// Takes the next bytes, and appends the frames of the groups that are whole with them.
    pub fn take(
        self,
        alloc: Global,
        bytes: &[u8],
        out: &mut Vec<u8>,
    ) -> Result<BitGiver, AllocError>
        requires ready { IsBitGiver self }
        requires few { self.fed + length bytes.now < 2 ^ 33 * self.channels }
        ensures { IfOk result (TakesBits self bytes.now out.old.items out.new.items) }
    {
        let BitGiver {
            layout,
            channels,
            fed,
            part,
        } = self;
        let mut part = part;
        part.extend_from_slice(bytes)?;
        let groups = part.len() / (channels * GROUP_BYTES);
        let (whole, rest) = part.split_at(groups * (channels * GROUP_BYTES));
        let stretch = Segment {
            channels,
            count: groups * GROUP_BITS,
        };
        push_native(alloc, out, whole, stretch, Interleaving::Bytes, layout)?;
        Ok(BitGiver {
            layout,
            channels,
            fed: fed + bytes.len(),
            part: Vec::from_slice(alloc, rest)?,
        })
    }

    /// Appends the frames of what came after the last whole group: the recording ends.
    pub fn finish(&self, alloc: Global, out: &mut Vec<u8>) -> Result<(), AllocError>
        requires ready { IsBitGiver self.now }
        ensures { OnOk result (FinishesBits self.now out.old.items out.new.items) }
    {
        let frames = self.part.len() / self.channels;
        let (whole, _) = self.part.split_at(frames * self.channels);
        let stretch = Segment {
            channels: self.channels,
            count: frames * 8,
        };
        push_native(alloc, out, whole, stretch, Interleaving::Bytes, self.layout)
    }
}
