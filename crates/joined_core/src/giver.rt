//! What gives the frames of a recording, however they are given.

ghost use Rattle.std.specs.Prelude.{◌≡◌, ◌+◌, ◌<◌, IfOk, OnOk, length};
ghost use Rattle.joined_core.specs.Givers as Givers;
ghost use Rattle.joined_core.specs.Givers.{Finishes, IsGiver, Takes, fed_of};

use crate::bits::BitGiver;
use crate::frames::FrameGiver;
use std::alloc::{AllocError, Global};

/// What gives the frames of a recording, however they are given.
#[derive(Drop)]
pub enum Giver {
    /// It gives the bits themselves.
    Bits(BitGiver),
    /// It gives frames by a filter.
    Frames(FrameGiver),
}

impl Giver {
    /// Takes the next bytes, and appends the frames that are due with them.
    pub fn take(self, alloc: Global, bytes: &[u8], out: &mut Vec<u8>) -> Result<Giver, AllocError>
        requires ready { IsGiver self }
        requires few { fed_of self + length bytes.now < Givers.room self }
        ensures { IfOk result (Takes self bytes.now out.old.items out.new.items) }
    {
        match self {
            Giver::Bits(giver) => Ok(Giver::Bits(giver.take(alloc, bytes, out)?)),
            Giver::Frames(giver) => Ok(Giver::Frames(giver.take(alloc, bytes, out)?)),
        }
    }

    /// Appends the frames that were not due: the recording ends.
    pub fn finish(&self, alloc: Global, out: &mut Vec<u8>) -> Result<(), AllocError>
        requires ready { IsGiver self.now }
        ensures { OnOk result (Finishes self.now out.old.items out.new.items) }
    {
        match self {
            Giver::Bits(giver) => giver.finish(alloc, out)?,
            Giver::Frames(giver) => giver.finish(alloc, out)?,
        }
        Ok(())
    }

    /// How many bytes came.
    pub fn fed(&self) -> usize
        ensures { result ≡ fed_of self.now }
    {
        match self {
            Giver::Bits(giver) => giver.fed,
            Giver::Frames(giver) => giver.fed,
        }
    }

    /// How many bytes a recording has fewer than.
    pub fn room(&self) -> usize
        requires ready { IsGiver self.now }
        ensures { result ≡ Givers.room self.now }
    {
        match self {
            Giver::Bits(giver) => MOST_BYTES * giver.channels,
            Giver::Frames(giver) => MOST_BYTES * giver.sound.channels,
        }
    }
}

// A recording has fewer bytes of each channel.
const MOST_BYTES: usize = 0x2_0000_0000;
