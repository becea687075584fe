//! Why a call is refused.

ghost use Rattle.std.specs.Prelude.{◌≡◌};
ghost use Rattle.dsdarc_c.specs.declared.fault.PlayFault.TheVariants as faults;

use std::alloc::AllocError;

/// Why bytes aren't taken or frames aren't played.
#[derive(Clone, Copy, PartialEq, Eq)]
pub enum PlayFault {
    /// The bytes are neither a DSDIFF 1.5 nor a DSF 1.01 file that holds a recording.
    FileRefused,
    /// The decimation factor doesn't divide the sample rate.
    RateNotDivided,
    /// More than `2^62` bytes were pushed.
    TooLong,
    /// A call before this one was refused, and the player is of no further use.
    AfterFault,
    /// More than `2^28` bytes precede the sound, or follow it in a DSDIFF form.
    TooMuchHeld,
    /// The sound isn't known yet.
    NotYet,
    /// There is no such frame.
    PastEnd,
    /// It isn't chosen yet how the sound is given.
    NoChoice,
    /// It was chosen before how the sound is given.
    Chosen,
    /// The file can't be joined to those before it.
    NotJoined,
    /// A player of files that follow each other doesn't seek.
    NoSeek,
    /// Out of memory.
    Memory,
}

impl From<AllocError> for PlayFault {
    ghost from_gives = { λ _ e. e ≡ faults.Memory };

    fn from(_e: AllocError) -> PlayFault {
        PlayFault::Memory
    }
}
