//! Why the reading of a file by pieces ends.

ghost use Rattle.std.specs.Prelude.{◌≡◌};
ghost use Rattle.dop_core.specs.declared.stop.DopStop.TheVariants.{Memory, Refused};

use crate::fault::DopFault;
use std::alloc::AllocError;

/// Why the reading of a file by pieces, or what is made of it, ends.
#[derive(Clone, Copy)]
pub enum DopStop {
    /// The file isn't one of DoP samples, for this fault, the first one.
    Refused(DopFault),
    /// A read failed.
    ReadFailed,
    /// A write failed.
    WriteFailed,
    /// The file isn't as it was when it was read before.
    Changed,
    /// Out of memory.
    Memory,
}

impl From<AllocError> for DopStop {
    ghost from_gives = { λ _ stop. stop ≡ Memory };

    fn from(_fault: AllocError) -> DopStop {
        DopStop::Memory
    }
}

impl From<DopFault> for DopStop {
    ghost from_gives = { λ fault stop. stop ≡ Refused fault };

    fn from(fault: DopFault) -> DopStop {
        DopStop::Refused(fault)
    }
}
