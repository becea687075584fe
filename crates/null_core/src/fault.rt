//! Why takes don't fit a mix, and why there is no null test.

ghost use Rattle.std.specs.Prelude.{◌≡◌};
ghost use Rattle.null_core.specs.declared.fault.MixedFault.TheVariants.{Memory};
ghost use Rattle.null_core.specs.declared.fault.NullFault.TheVariants as nulls;
ghost use Rattle.null_core.specs.Calling.{fault_of_mixed, fault_of_text};

use form_core::ReadFault;
use mix_core::ProjectFault;
use std::alloc::AllocError;

/// Why takes don't fit a mix: the first fault that applies. Numbers count from 0.
#[derive(Clone, Copy)]
pub enum MixedFault {
    /// The take of this number has another sample rate or number of channels than take 0.
    TakeMismatch(usize),
    /// The clip of this number ends after the end of its take.
    ClipOutside(usize),
    /// The clip of this number has gains for another number of channels than the takes have.
    ClipGains(usize),
    /// Out of memory.
    Memory,
}

impl From<AllocError> for MixedFault {
    ghost from_gives = { λ _ fault. fault ≡ Memory };

    fn from(_: AllocError) -> MixedFault {
        MixedFault::Memory
    }
}

/// Why a master can't be compared with a mix: the first fault that applies. Numbers count from 0.
#[derive(Clone, Copy, Debug)]
pub enum NullFault {
    /// The text states no mix. This is its first fault.
    Mix(ProjectFault),
    /// There are not as many files as takes.
    TakeNumber,
    /// The file of the take of this number holds no recording. This is its first fault.
    TakeUnread(usize, ReadFault),
    /// The take of this number has another sample rate or number of channels than take 0.
    TakeMismatch(usize),
    /// The clip of this number ends after the end of its take.
    ClipOutside(usize),
    /// The clip of this number has gains for another number of channels than the takes have.
    ClipGains(usize),
    /// Out of memory.
    Memory,
}

impl From<ProjectFault> for NullFault {
    ghost from_gives = { λ text fault. fault ≡ fault_of_text text };

    fn from(fault: ProjectFault) -> NullFault {
        match fault {
            ProjectFault::Memory => NullFault::Memory,
            fault => NullFault::Mix(fault),
        }
    }
}

impl From<MixedFault> for NullFault {
    ghost from_gives = { λ mixed fault. fault ≡ fault_of_mixed mixed };

    fn from(fault: MixedFault) -> NullFault {
        match fault {
            MixedFault::TakeMismatch(take) => NullFault::TakeMismatch(take),
            MixedFault::ClipOutside(clip) => NullFault::ClipOutside(clip),
            MixedFault::ClipGains(clip) => NullFault::ClipGains(clip),
            MixedFault::Memory => NullFault::Memory,
        }
    }
}

impl From<AllocError> for NullFault {
    ghost from_gives = { λ _ fault. fault ≡ nulls.Memory };

    fn from(_: AllocError) -> NullFault {
        NullFault::Memory
    }
}
