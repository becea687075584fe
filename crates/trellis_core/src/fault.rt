//! Why no bridge was found.

ghost use Rattle.std.specs.Prelude.{◌≡◌};
ghost use Rattle.trellis_core.specs.declared.fault.BridgeFault.TheVariants.{Memory, Sink};

use cost_core::SinkFault;
use std::alloc::AllocError;
use std::fmt;
use thiserror::Error;

/// Why no bridge was found. A fault's text is its name.
#[derive(Clone, Copy, Debug, PartialEq, Eq, Error)]
pub enum BridgeFault {
    /// Out of memory.
    Memory,
    /// The sink refused a row.
    Sink,
}

impl fmt::Display for BridgeFault {
    fn fmt<W: fmt::Write>(&self, f: &mut fmt::Formatter<W>) -> fmt::Result {
        fmt::Debug::fmt(self, f)
    }
}

impl From<AllocError> for BridgeFault {
    ghost from_gives = { λ _ e. e ≡ Memory };

    fn from(_e: AllocError) -> BridgeFault {
        BridgeFault::Memory
    }
}

impl From<SinkFault> for BridgeFault {
    ghost from_gives = { λ _ e. e ≡ Sink };

    fn from(_e: SinkFault) -> BridgeFault {
        BridgeFault::Sink
    }
}
