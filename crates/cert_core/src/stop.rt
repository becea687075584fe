//! Why a reading stops before its end.

use crate::verdict::CertReason;
use chunk_core::Device;
use std::alloc::AllocError;

/// A reason for a rejection, a read that failed, or out of memory.
#[derive(Clone, Copy)]
pub enum Stop {
    Reason(CertReason),
    Device,
    Memory,
}

impl From<AllocError> for Stop {
    ghost use Rattle.std.specs.Prelude.{◌≡◌};
    ghost use Rattle.cert_core.specs.declared.stop.Stop.TheVariants.{Memory};

    ghost from_gives = { λ _ e. e ≡ Memory };

    fn from(_: AllocError) -> Stop {
        Stop::Memory
    }
}

impl From<Device> for Stop {
    ghost use Rattle.std.specs.Prelude.{◌≡◌};
    ghost use Rattle.cert_core.specs.declared.stop.Stop.TheVariants.{Device};

    ghost from_gives = { λ _ e. e ≡ Device };

    fn from(_: Device) -> Stop {
        Stop::Device
    }
}
