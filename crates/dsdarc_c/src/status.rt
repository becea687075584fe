//! The statuses of the calls, as C knows them.

ghost use Rattle.std.specs.Prelude.{◌≡◌, MatchResult};
ghost use Rattle.dsdarc_c.specs.Making.{status_of_project};
ghost use Rattle.dsdarc_c.specs.Statuses.{status_of};

use crate::fault::PlayFault;
use project_core::ProjectFault;

// As in dsdarc.h.
const OK: u32 = 0;

const SIZE: u32 = 2;

const MEMORY: u32 = 3;

const AFTER_FAULT: u32 = 4;

const NOT_YET: u32 = 5;

const PAST_END: u32 = 6;

const FILE_REFUSED: u32 = 7;

const RATE_NOT_DIVIDED: u32 = 8;

const TOO_LONG: u32 = 9;

pub(crate) const NO_DECIMATION: u32 = 10;

const NOT_TOML: u32 = 11;

const UNKNOWN_KEY: u32 = 12;

const MISSING_KEY: u32 = 13;

const WRONG_KIND: u32 = 14;

const OUT_OF_LIMIT: u32 = 15;

const NO_TAKE: u32 = 16;

const SHORT_CUE: u32 = 17;

const LAST_BRIDGE: u32 = 18;

const TOO_MUCH_HELD: u32 = 20;

const NO_CHOICE: u32 = 22;

const CHOSEN: u32 = 23;

const NOT_JOINED: u32 = 25;

const NO_SEEK: u32 = 26;

/// The status of a call that is out of memory.
pub(crate) fn memory() -> u32
    ensures { result ≡ 3 }
{
    MEMORY
}

/// The status of a call with a number that can't be.
pub(crate) fn size_refused() -> u32
    ensures { result ≡ 2 }
{
    SIZE
}

/// The status of a call that was done.
pub(crate) fn done() -> u32
    ensures { result ≡ 0 }
{
    OK
}

/// The status of a fault.
pub(crate) fn status_of(fault: PlayFault) -> u32
    ensures { result ≡ status_of fault }
{
    match fault {
        PlayFault::FileRefused => FILE_REFUSED,
        PlayFault::RateNotDivided => RATE_NOT_DIVIDED,
        PlayFault::TooLong => TOO_LONG,
        PlayFault::TooMuchHeld => TOO_MUCH_HELD,
        PlayFault::AfterFault => AFTER_FAULT,
        PlayFault::NotYet => NOT_YET,
        PlayFault::PastEnd => PAST_END,
        PlayFault::NoChoice => NO_CHOICE,
        PlayFault::Chosen => CHOSEN,
        PlayFault::NotJoined => NOT_JOINED,
        PlayFault::NoSeek => NO_SEEK,
        PlayFault::Memory => MEMORY,
    }
}

/// The status of a call that gives nothing but its outcome.
pub(crate) fn status_of_outcome(outcome: Result<(), PlayFault>) -> u32
    ensures { MatchResult outcome (λ _. result ≡ 0) (λ fault. result ≡ status_of fault) }
{
    match outcome {
        Ok(()) => done(),
        Err(fault) => status_of(fault),
    }
}

/// The status of a call that gives a value, which goes to a place of the caller; after a fault the place is as it was.
pub(crate) fn status_with<T: Copy>(outcome: Result<T, PlayFault>, to: &mut T) -> u32
    ensures { MatchResult outcome (λ value. (result ≡ 0) × (to.new ≡ value))
        (λ fault. (result ≡ status_of fault) × (to.new ≡ to.old)) }
{
    match outcome {
        Ok(value) => {
            *to = value;
            done()
        }
        Err(fault) => status_of(fault),
    }
}

/// The status of a fault of a project text.
pub(crate) fn status_of_project(fault: ProjectFault) -> u32
    ensures { result ≡ status_of_project fault }
{
    match fault {
        ProjectFault::NotToml => NOT_TOML,
        ProjectFault::UnknownKey(_) => UNKNOWN_KEY,
        ProjectFault::MissingKey(..) => MISSING_KEY,
        ProjectFault::WrongKind(..) => WRONG_KIND,
        ProjectFault::OutOfLimit(..) => OUT_OF_LIMIT,
        ProjectFault::NoTake { .. } => NO_TAKE,
        ProjectFault::ShortCue { .. } => SHORT_CUE,
        ProjectFault::LastBridge { .. } => LAST_BRIDGE,
        ProjectFault::Memory => MEMORY,
    }
}
