//! Why bytes can't be read as bits.

ghost use Rattle.std.specs.Prelude.{◌≡◌};
ghost use Rattle.dsd_bits.specs.declared.fault.BitsFault.TheVariants as bits_faults;
ghost use Rattle.dsd_bits.specs.declared.fault.LaceFault.TheVariants as lace_faults;

use std::alloc::{AllocError, AllocFailed};
use std::fmt;
use thiserror::Error;

/// Why bytes can't be read as a list of bits. A fault's text is its name.
#[derive(Clone, Copy, Debug, PartialEq, Eq, Error)]
pub enum BitsFault {
    /// The bytes hold fewer bits than were asked for.
    TooFewBytes,
    /// Out of memory.
    Memory,
}

impl fmt::Display for BitsFault {
    fn fmt<W: fmt::Write>(&self, f: &mut fmt::Formatter<W>) -> fmt::Result {
        fmt::Debug::fmt(self, f)
    }
}

impl From<AllocError> for BitsFault {
    ghost from_gives = { λ _ e. e ≡ bits_faults.Memory };

    fn from(_e: AllocError) -> BitsFault {
        BitsFault::Memory
    }
}

/// Why sound bytes can't be read as channels. A fault's text is its name.
#[derive(Clone, Copy, Debug, PartialEq, Eq, Error)]
pub enum LaceFault {
    /// The bytes are not a whole number of frames, where a frame is one byte of each channel.
    PartFrame,
    /// The bytes hold fewer blocks than the channels take.
    TooFewBytes,
    /// Out of memory.
    Memory,
}

impl fmt::Display for LaceFault {
    fn fmt<W: fmt::Write>(&self, f: &mut fmt::Formatter<W>) -> fmt::Result {
        fmt::Debug::fmt(self, f)
    }
}

impl From<AllocError> for LaceFault {
    ghost from_gives = { λ _ e. e ≡ lace_faults.Memory };

    fn from(_e: AllocError) -> LaceFault {
        LaceFault::Memory
    }
}
