//! Why a file does not hold a recording that can be read.

ghost use Rattle.std.specs.Prelude.{◌≡◌};
ghost use Rattle.dsdiff_core.specs.declared.fault.DsdiffFault.TheVariants.{Memory};
ghost use Rattle.dsdiff_core.specs.Steps.{chunk_fault};

use chunk_core::ChunkFault;
use std::alloc::{AllocError, AllocFailed};
use std::error::Error;
use std::fmt;

/// Why a file is not a DSDIFF 1.5 file of uncompressed sound within this project's limits.
///
/// A fault's text is its name, for `Chunk` and `Twice` followed by what they tell. The values that others tell are those
/// that are in the file.
#[derive(Clone, Copy, Debug, PartialEq, Eq)]
pub enum DsdiffFault {
    /// Fewer than 16 bytes, no `FRM8` at the start, or a form of another type than `DSD `.
    NotDsdiff,
    /// The form's size is below the 4 bytes of its type, or the form extends past the file's end by more than the one
    /// byte of a last pad.
    FormCut {
        /// The form's size, as its field says.
        size: u64,
        /// How many bytes the file has too few for it; 0 if the size is below 4.
        missing: u64,
    },
    /// The form, the sound property or an edited master is not a list of chunks. Places are counted from the file's
    /// first byte.
    Chunk(ChunkFault),
    /// The first chunk is not `FVER`, or has fewer than 4 bytes; this is its ID, if there is a chunk.
    NoVersion(Option<[u8; 4]>),
    /// The main version is not 1; these are the four bytes of the version.
    BadVersion([u8; 4]),
    /// A second chunk of a kind that may be there once; this is its ID.
    Twice([u8; 4]),
    /// There is no sound property.
    NoProperty,
    /// The sound property has no `FS  `, or its `FS  ` has fewer than 4 bytes.
    NoRate,
    /// The sound property has no `CHNL`, or its `CHNL` is too short for the channels that it names.
    NoChannels,
    /// The sound property has no `CMPR`, or its `CMPR` has fewer than 4 bytes.
    NoCompression,
    /// The sound is compressed; this is the type of the compression.
    Compressed([u8; 4]),
    /// This rate is not from 1,000,000 to 50,000,000 hertz.
    BadRate(u32),
    /// This channel number is not from 1 to 6.
    BadChannelNumber(u16),
    /// There is no sound.
    NoSound,
    /// The sound comes before the sound property.
    SoundBeforeProperty,
    /// The sound is not a whole number of frames, where a frame is one byte of each channel.
    PartFrame {
        /// How many bytes the sound has.
        size: u64,
        /// How many channels.
        channels: usize,
    },
    /// A channel has more than `2^36` bits.
    TooLong {
        /// How many bytes the sound has.
        size: u64,
        /// How many channels.
        channels: usize,
    },
    /// A mark has fewer bytes than its fields, or than its fields and the text whose length they state.
    BadMark,
    /// Out of memory.
    Memory,
}

impl fmt::Display for DsdiffFault {
    fn fmt<W: fmt::Write>(&self, f: &mut fmt::Formatter<W>) -> fmt::Result {
        match self {
            DsdiffFault::Chunk(fault) => write!(f, "Chunk {fault}"),
            DsdiffFault::Twice(id) => write!(f, "Twice {:08x}", u32::from_be_bytes(*id)),
            DsdiffFault::FormCut { .. } => f.write_str("FormCut"),
            DsdiffFault::NoVersion(_) => f.write_str("NoVersion"),
            DsdiffFault::BadVersion(_) => f.write_str("BadVersion"),
            DsdiffFault::Compressed(_) => f.write_str("Compressed"),
            DsdiffFault::BadRate(_) => f.write_str("BadRate"),
            DsdiffFault::BadChannelNumber(_) => f.write_str("BadChannelNumber"),
            DsdiffFault::PartFrame { .. } => f.write_str("PartFrame"),
            DsdiffFault::TooLong { .. } => f.write_str("TooLong"),
            _ => write!(f, "{self:?}"),
        }
    }
}

impl Error for DsdiffFault {}

impl From<ChunkFault> for DsdiffFault {
    ghost from_gives = { λ f e. e ≡ chunk_fault f };

    fn from(f: ChunkFault) -> DsdiffFault {
        match f {
            ChunkFault::Memory => DsdiffFault::Memory,
            _ => DsdiffFault::Chunk(f),
        }
    }
}

impl From<AllocError> for DsdiffFault {
    ghost from_gives = { λ _ e. e ≡ Memory };

    fn from(_e: AllocError) -> DsdiffFault {
        DsdiffFault::Memory
    }
}

impl<T: Drop> From<AllocFailed<T>> for DsdiffFault {
    ghost from_gives = { λ _ e. e ≡ Memory };

    fn from(_e: AllocFailed<T>) -> DsdiffFault {
        DsdiffFault::Memory
    }
}
