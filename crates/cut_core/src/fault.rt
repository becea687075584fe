//! Why a splice can't be cut.

ghost use Rattle.std.specs.Prelude.{◌≡◌};
ghost use Rattle.cut_core.specs.declared.fault.CutFault.TheVariants.{Memory};

use form_core::ReadFault;
use std::alloc::AllocError;
use thiserror::Error;

/// Why a splice can't be cut from the files of its takes: the first fault that applies.
///
/// A fault's text is its name, then a space and the number of the take or cue, counted from 0, and for a take that
/// can't be read also the reason.
#[derive(Clone, Copy, Debug, PartialEq, Eq, Error)]
pub enum CutFault {
    /// There are not as many files as takes.
    #[error("TakeNumber")]
    TakeNumber,
    /// The file of the take of this number can't be read as a recording.
    #[error("TakeUnread {0} {1}")]
    TakeUnread(usize, ReadFault),
    /// The take of this number has another sample rate or number of channels than take 0.
    #[error("TakeMismatch {0}")]
    TakeMismatch(usize),
    /// The cue of this number stops after the end of its take.
    #[error("CueOutside {0}")]
    CueOutside(usize),
    /// The master would have more than `2^36` bits a channel.
    #[error("MasterTooLong")]
    MasterTooLong,
    /// The channels of a DSDIFF file would end inside a byte.
    #[error("NotWholeBytes")]
    NotWholeBytes,
    /// The cue after this one starts too early for the fade of the bridge between them.
    #[error("NoRoomBefore {0}")]
    NoRoomBefore(usize),
    /// The cue of this number stops too late for its fade.
    #[error("NoRoomAfter {0}")]
    NoRoomAfter(usize),
    /// Out of memory.
    #[error("Memory")]
    Memory,
}

impl From<AllocError> for CutFault {
    ghost from_gives = { λ _ fault. fault ≡ Memory };

    fn from(_: AllocError) -> CutFault {
        CutFault::Memory
    }
}
