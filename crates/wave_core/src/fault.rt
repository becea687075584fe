//! Why samples can't be written.

ghost use Rattle.std.specs.Prelude.{◌≡◌};
ghost use Rattle.wave_core.specs.declared.fault.WaveFault.TheVariants.{Memory};

use std::alloc::AllocError;
use std::fmt;
use thiserror::Error;

/// Why samples can't be written. A fault's text is its name.
#[derive(Clone, Copy, Debug, PartialEq, Eq, Error)]
pub enum WaveFault {
    /// The size of the RIFF chunk would not fit its 32 bits.
    TooLarge,
    /// Out of memory.
    Memory,
}

impl fmt::Display for WaveFault {
    fn fmt<W: fmt::Write>(&self, f: &mut fmt::Formatter<W>) -> fmt::Result {
        fmt::Debug::fmt(self, f)
    }
}

impl From<AllocError> for WaveFault {
    ghost from_gives = { λ _ e. e ≡ Memory };

    fn from(_e: AllocError) -> WaveFault {
        WaveFault::Memory
    }
}
