//! Why a range is not a list of chunks.

ghost use Rattle.std.specs.Prelude.{◌≡◌};
ghost use Rattle.chunk_core.specs.declared.fault.ChunkFault.TheVariants.{Memory};

use std::alloc::AllocFailed;
use thiserror::Error;

/// Why a range is not a list of chunks. Each fault has the place of the chunk's header, in bytes from the start of the
/// slice that was walked.
#[derive(Clone, Copy, Debug, PartialEq, Eq, Error)]
pub enum ChunkFault {
    /// At this place at least one byte is left, but fewer than the 12 of a header.
    #[error("HeadCut {0}")]
    HeadCut(usize),
    /// The data of the chunk at this place extend past the end of the range.
    #[error("DataCut {place}")]
    DataCut {
        place: usize,
        /// The ID in the chunk's header.
        id: [u8; 4],
        /// The size there, in bytes.
        size: u64,
    },
    /// Out of memory.
    #[error("Memory")]
    Memory,
}

impl<T: Drop> From<AllocFailed<T>> for ChunkFault {
    ghost from_gives = { λ _ e. e ≡ Memory };

    fn from(_e: AllocFailed<T>) -> ChunkFault {
        ChunkFault::Memory
    }
}
