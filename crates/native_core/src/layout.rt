//! How the bits of several channels are handed to a converter.

use dsd_bits::BitOrder;

/// How the bits of several channels are handed to a converter: frame by frame.
#[derive(Clone, Copy)]
pub enum Layout {
    /// A frame is one byte of each channel in turn, 8 bits, with its bits in this order.
    Bytes(BitOrder),
    /// A frame is one sample of each channel in turn, by DoP 1.1: 24 bits, the lowest byte first. The highest byte is
    /// the frame's marker, and the others are 16 bits, the earliest the most significant.
    Dop,
}

impl Layout {
    ghost use Rattle.std.specs.Prelude.{◌≡◌, ◌≤◌};
    ghost use Rattle.native_core.specs.Native as Native;

    /// How many bits of a channel a frame has.
    pub fn unit(self) -> usize
        ensures { result ≡ Native.unit_of self }
    {
        match self {
            Layout::Bytes(_) => 8,
            Layout::Dop => 16,
        }
    }

    /// How many bytes a frame of so many channels has.
    pub fn frame_size(self, channels: usize) -> usize
        requires { channels ≤ 6 }
        ensures { result ≡ Native.frame_size self channels }
    {
        match self {
            Layout::Bytes(_) => channels,
            Layout::Dop => 3 * channels,
        }
    }
}
