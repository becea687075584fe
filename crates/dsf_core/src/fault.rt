//! Why a file does not hold a recording that can be read.

ghost use Rattle.std.specs.Prelude.{◌≡◌};
ghost use Rattle.dsf_core.specs.declared.fault.DsfFault.TheVariants.{Memory};

use std::alloc::{AllocError, AllocFailed};
use std::fmt;
use thiserror::Error;

/// Why a file is not a DSF 1.01 file within this project's limits, and what was seen there. A fault's text is its name.
#[derive(Clone, Copy, Debug, PartialEq, Eq, Error)]
pub enum DsfFault {
    /// The file has fewer than 4 bytes, or does not start with `DSD `.
    NotDsf,
    /// The file ends inside the header of a chunk, or inside the format chunk. It has so many bytes.
    HeadCut(u64),
    /// The first chunk does not have 28 bytes, the format chunk is missing or has fewer than 52 bytes, the data chunk
    /// is missing or has fewer than 12 bytes, or the format is not raw DSD.
    BadFormat(Misformat),
    /// The format version is not 1.
    BadVersion(u32),
    /// The channel number is not from 1 to 6.
    BadChannelNumber(u32),
    /// The rate is not from 1,000,000 to 50,000,000 hertz.
    BadRate(u32),
    /// The bits per sample are neither 1 nor 8.
    BadBits(u32),
    /// The block size is not 4096 bytes.
    BadBlock(u32),
    /// A channel has so many bits, more than `2^36`.
    TooLong(u64),
    /// The blocks that the channels need are not wholly in the data chunk, or not in the file.
    DataCut(CutSound),
    /// The pointer to the tag leads to a place before the end of these blocks, or past the file's end.
    BadPointer {
        /// Where the tag is said to begin.
        tag: u64,
        /// Where the blocks end.
        end: u64,
        /// How many bytes the file has, if the tag would begin after them.
        length: Option<u64>,
    },
    /// Out of memory.
    Memory,
}

/// Which chunk of a file is not as in DSF 1.01, and what it is.
#[derive(Clone, Copy, Debug, PartialEq, Eq)]
pub enum Misformat {
    /// The first chunk has this size, not 28.
    First(u64),
    /// The second chunk has this ID and this size, and is not `fmt ` with 52 bytes or more.
    Format([u8; 4], u64),
    /// The third chunk has this ID and this size, and is not `data` with 12 bytes or more.
    Data([u8; 4], u64),
    /// The format is this one, not 0.
    Kind(u32),
}

/// A sound whose bytes are not all there.
#[derive(Clone, Copy, Debug, PartialEq, Eq)]
pub struct CutSound {
    /// How many bytes the blocks of its channels have.
    pub needed: u64,
    /// How many bytes are there.
    pub there: u64,
    /// Whether the size of the data chunk says so. Otherwise the file ends there.
    pub stated: bool,
    /// How many bytes at the end of each channel's last block hold no bits.
    pub fill: u64,
}

impl DsfFault {
    fn name(self) -> &'static str {
        match self {
            DsfFault::NotDsf => "NotDsf",
            DsfFault::HeadCut(_) => "HeadCut",
            DsfFault::BadFormat(_) => "BadFormat",
            DsfFault::BadVersion(_) => "BadVersion",
            DsfFault::BadChannelNumber(_) => "BadChannelNumber",
            DsfFault::BadRate(_) => "BadRate",
            DsfFault::BadBits(_) => "BadBits",
            DsfFault::BadBlock(_) => "BadBlock",
            DsfFault::TooLong(_) => "TooLong",
            DsfFault::DataCut(_) => "DataCut",
            DsfFault::BadPointer { .. } => "BadPointer",
            DsfFault::Memory => "Memory",
        }
    }
}

impl fmt::Display for DsfFault {
    fn fmt<W: fmt::Write>(&self, f: &mut fmt::Formatter<W>) -> fmt::Result {
        f.write_str(self.name())
    }
}

impl From<AllocError> for DsfFault {
    ghost from_gives = { λ _ e. e ≡ Memory };

    fn from(_e: AllocError) -> DsfFault {
        DsfFault::Memory
    }
}

impl<T: Drop> From<AllocFailed<T>> for DsfFault {
    ghost from_gives = { λ _ e. e ≡ Memory };

    fn from(_e: AllocFailed<T>) -> DsfFault {
        DsfFault::Memory
    }
}
