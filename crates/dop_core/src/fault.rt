//! Why a file isn't one of DoP samples that can be read.

ghost use Rattle.std.specs.Prelude.{◌≡◌};
ghost use Rattle.dop_core.specs.declared.fault.DopFault.TheVariants.{Memory};

use std::alloc::AllocError;
use std::fmt;
use thiserror::Error;

/// Why a file isn't a WAVE file of DoP 1.1 samples within this project's limits, and what was seen there. A fault's text
/// is its name.
#[derive(Clone, Copy, Debug, PartialEq, Eq, Error)]
pub enum DopFault {
    /// The file has fewer than 12 bytes, or does not begin as a RIFF WAVE file.
    NotWave,
    /// The file ends before a `data` chunk.
    NoData,
    /// There is no `fmt ` chunk before the data, or it has fewer than 16 bytes.
    NoFormat,
    /// The samples aren't integers of 24 bits, in frames of three bytes a channel.
    NotPcm24,
    /// The channel number is not from 1 to 6.
    BadChannelNumber(u16),
    /// The rate is not from 62,500 to 3,125,000 frames a second, a sixteenth of a recording's.
    BadRate(u32),
    /// The data chunk has the size of a stream, 0 or 0xffffffff, which isn't the number of its bytes.
    NoSize(u32),
    /// The file ends inside the data chunk.
    DataCut {
        /// How many bytes the data chunk has.
        size: u32,
        /// How many bytes are there.
        there: u64,
    },
    /// The data chunk does not hold whole frames.
    PartFrame,
    /// A sample of this frame doesn't have the marker that it should have. Frames are counted from 0.
    BadMarker(u64),
    /// The chunk that says how many bits there are is cut short.
    CountCut,
    /// That chunk says so many bits, which don't end in the last frame.
    BadCount(u64),
    /// Out of memory.
    Memory,
}

impl DopFault {
    fn name(self) -> &'static str {
        match self {
            DopFault::NotWave => "NotWave",
            DopFault::NoData => "NoData",
            DopFault::NoFormat => "NoFormat",
            DopFault::NotPcm24 => "NotPcm24",
            DopFault::BadChannelNumber(_) => "BadChannelNumber",
            DopFault::BadRate(_) => "BadRate",
            DopFault::NoSize(_) => "NoSize",
            DopFault::DataCut { .. } => "DataCut",
            DopFault::PartFrame => "PartFrame",
            DopFault::BadMarker(_) => "BadMarker",
            DopFault::CountCut => "CountCut",
            DopFault::BadCount(_) => "BadCount",
            DopFault::Memory => "Memory",
        }
    }
}

impl fmt::Display for DopFault {
    fn fmt<W: fmt::Write>(&self, f: &mut fmt::Formatter<W>) -> fmt::Result {
        f.write_str(self.name())
    }
}

impl From<AllocError> for DopFault {
    ghost from_gives = { λ _ e. e ≡ Memory };

    fn from(_e: AllocError) -> DopFault {
        DopFault::Memory
    }
}
