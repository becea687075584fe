//! Why a recording can't be written.

ghost use Rattle.std.specs.Prelude.{◌≡◌};
ghost use Rattle.dsdiff_core.specs.declared.write_fault.WriteFault.TheVariants.{Memory};

use std::alloc::AllocError;
use std::fmt;
use thiserror::Error;

/// Why a recording can't be written. A fault's text is its name.
#[derive(Clone, Copy, Debug, PartialEq, Eq, Error)]
pub enum WriteFault {
    /// The channels end inside a byte: the number of their bits isn't a multiple of 8.
    NotWholeBytes,
    /// Out of memory.
    Memory,
}

impl fmt::Display for WriteFault {
    fn fmt<W: fmt::Write>(&self, f: &mut fmt::Formatter<W>) -> fmt::Result {
        fmt::Debug::fmt(self, f)
    }
}

impl From<AllocError> for WriteFault {
    ghost from_gives = { λ _ e. e ≡ Memory };

    fn from(_e: AllocError) -> WriteFault {
        WriteFault::Memory
    }
}
