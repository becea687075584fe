//! What a reader of certificates returns.

use std::alloc::AllocError;
use std::{error, fmt};
use thiserror::Error;

/// Why a certificate is rejected. A reason's text is its name, followed by each number that it has after a space.
#[derive(Clone, Copy, Debug, PartialEq, Eq)]
pub enum CertReason {
    /// The bytes end too early.
    Cut,
    /// The header isn't the expected one, or an entry is of another cue or channel.
    Head,
    /// The entry is of a bridge of another length.
    Length,
    /// A value of a row is above `2^63`.
    Bound,
    /// The row of this level isn't spelled as its version spells it: its width is above eight, or no excess is 0,
    /// or fewer bytes would do.
    Row(usize),
    /// The value of the start state at level 0 isn't 0.
    Start,
    /// At this level the value of this state exceeds that of a state before it plus the cost of the
    /// step between them.
    Step(usize, usize),
    /// The value of this state at the last level, plus the cost of ending there, is below the stated cost.
    End(usize),
    /// The stated cost isn't that of the bits.
    Cost,
    /// Bytes follow the last entry.
    Extra,
}

impl fmt::Display for CertReason {
    fn fmt<W: fmt::Write>(&self, f: &mut fmt::Formatter<W>) -> fmt::Result {
        match self {
            CertReason::Row(level) => write!(f, "Row {level}"),
            CertReason::Step(level, state) => write!(f, "Step {level} {state}"),
            CertReason::End(state) => write!(f, "End {state}"),
            _ => write!(f, "{self:?}"),
        }
    }
}

impl error::Error for CertReason {}

/// Whether an entry shows that the bits of a bridge are least.
#[derive(Clone, Copy, PartialEq, Eq)]
pub enum CertVerdict {
    /// It does: no bits of the bridge's length cost less than these, and this is what they cost.
    Accepted { cost: u64 },
    /// It doesn't, for this reason.
    Rejected(CertReason),
}

/// Why a certificate wasn't judged. A fault's text is its name.
#[derive(Clone, Copy, Debug, PartialEq, Eq, Error)]
pub enum CheckFault {
    /// A read failed.
    Device,
    /// Out of memory.
    Memory,
}

impl fmt::Display for CheckFault {
    fn fmt<W: fmt::Write>(&self, f: &mut fmt::Formatter<W>) -> fmt::Result {
        fmt::Debug::fmt(self, f)
    }
}

impl From<AllocError> for CheckFault {
    ghost use Rattle.std.specs.Prelude.{◌≡◌};
    ghost use Rattle.cert_core.specs.declared.verdict.CheckFault.TheVariants.{Memory};

    ghost from_gives = { λ _ e. e ≡ Memory };

    fn from(_: AllocError) -> CheckFault {
        CheckFault::Memory
    }
}
