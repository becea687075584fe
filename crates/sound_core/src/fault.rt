//! Why a reader's file can't be read or played.

ghost use Rattle.std.specs.Prelude.{◌≡◌};
ghost use Rattle.sound_core.specs.declared.fault.StreamFault.TheVariants as faults;

use form_core::ReadFault;
use std::alloc::AllocError;
use std::fmt;
use thiserror::Error;

/// Why a reader's file can't be read or played, or not to its end. A fault's text is its name.
#[derive(Clone, Copy, Debug, PartialEq, Eq, Error)]
pub enum StreamFault {
    /// The bytes are neither a DSDIFF 1.5 nor a DSF 1.01 file that holds a recording.
    FileRefused,
    /// The decimation factor doesn't divide the sample rate.
    RateNotDivided,
    /// The WAVE file would be larger than its 32-bit sizes allow.
    TooLarge,
    /// A read failed.
    ReadFailed,
    /// A write failed, or accepted nothing.
    WriteFailed,
    /// There were `2^40` reads, and the file had not ended; or there had been so many reads, bytes or failures before that
    /// more of them could not be counted.
    TurnLimit,
    /// Out of memory.
    Memory,
}

impl fmt::Display for StreamFault {
    fn fmt<W: fmt::Write>(&self, f: &mut fmt::Formatter<W>) -> fmt::Result {
        fmt::Debug::fmt(self, f)
    }
}

impl From<AllocError> for StreamFault {
    ghost from_gives = { λ _ e. e ≡ faults.Memory };

    fn from(_e: AllocError) -> StreamFault {
        StreamFault::Memory
    }
}

/// Why a file is not read to what it holds.
#[derive(Clone, Copy, Debug, PartialEq, Eq)]
pub enum Unread {
    /// It holds no recording, for this fault, the first one.
    Refused(ReadFault),
    /// It could not be read.
    Stream(StreamFault),
}
