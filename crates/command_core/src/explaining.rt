//! What there is to explain of an outcome, after it was printed.

use crate::outcome::Outcome;
use archive_core::Fault;
use ended_core::{Ended, NeighbourReason, NullReason};
use folder_core::{FRONT, Failure};
use null_commands::Tested;
use null_core::Verdict;
use sound_core::StreamFault;
use std::io;
use transfer_commands::{CommandFault, NeighbourFault};

/// What the disk remembers of a command: why a file could not be made, how the file begins that was kept last, and how
/// many bytes the file gave that was opened last.
#[derive(Clone, Copy)]
pub(crate) struct Remembered {
    pub(crate) failure: Option<Failure>,
    pub(crate) front: Option<[u8; FRONT]>,
    pub(crate) given: u64,
}

/// An outcome that was printed.
#[derive(Drop)]
pub struct Shown {
    /// The outcome, which is a failed write if its line was refused.
    pub outcome: Outcome,
    /// Why standard output did not take the line.
    pub refusal: Option<io::Error>,
}

/// What there is to explain of what a task came to.
pub(crate) fn ended_of(shown: &Shown, remembered: Remembered) -> Option<Ended> {
    match (&shown.outcome, shown.refusal) {
        (Outcome::WriteFailed, Some(error)) => Some(Ended::Unprinted(error)),
        (Outcome::WriteFailed, None) => Some(Ended::WriteFailed(remembered.failure)),
        (Outcome::ReadFailed, _) => Some(Ended::ReadFailed),
        (Outcome::Fault(Fault::Stream(StreamFault::WriteFailed)), _) => {
            Some(Ended::WriteFailed(remembered.failure))
        }
        (Outcome::Fault(Fault::Stream(StreamFault::ReadFailed)), _) => Some(Ended::ReadFailed),
        (Outcome::Fault(fault), _) if remembered.given == 0 => Some(Ended::Nothing(*fault)),
        (Outcome::Fault(fault), _) => Some(Ended::Fault(*fault)),
        (Outcome::Played(count), _) => Some(Ended::Played(remembered.front?, *count)),
        (Outcome::Spoken(played), _) => {
            Some(Ended::Spoken(remembered.front?, played.size, played.mask))
        }
        (Outcome::NoChannelType, _) => Some(Ended::NoChannelType),
        (Outcome::NoPart(fault), _) => Some(Ended::NoPart(*fault)),
        (Outcome::NoPrevious(fault), _) => Some(Ended::NoPrevious(neighbour_reason_of(*fault))),
        (Outcome::NoNext(fault), _) => Some(Ended::NoNext(neighbour_reason_of(*fault))),
        (Outcome::DopUnread(fault), _) => Some(Ended::DopUnread(*fault)),
        (Outcome::Rejected(reason), _) => Some(Ended::Rejected(*reason)),
        (Outcome::NullTested(tested), _) => Some(Ended::NotNull(null_reason_of(tested)?)),
        _ => None,
    }
}

// Why a file is no neighbour of another.
fn neighbour_reason_of(fault: NeighbourFault) -> NeighbourReason {
    match fault {
        NeighbourFault::Command(CommandFault::Call(fault)) => NeighbourReason::Refused(fault),
        NeighbourFault::Command(_) => NeighbourReason::Unread,
        NeighbourFault::OtherRate => NeighbourReason::Rate,
        NeighbourFault::OtherChannels => NeighbourReason::Channels,
        NeighbourFault::NotWholeBytes => NeighbourReason::Rest,
    }
}

// Why a null test rejects a master, if it does.
fn null_reason_of(tested: &Tested) -> Option<NullReason> {
    let verdict = match &tested.heard {
        Ok(heard) => heard.verdict,
        Err(fault) => return Some(NullReason::Unread(*fault)),
    };
    match verdict {
        Verdict::Accepted(_) => None,
        Verdict::MasterShape { found, wanted } => Some(NullReason::Shape { found, wanted }),
        Verdict::MasterLength { found, wanted } => Some(NullReason::Length { found, wanted }),
        Verdict::TooLoud { channel, place } => Some(NullReason::Loud { channel, place }),
        Verdict::Residual { channel, place } => Some(NullReason::Residual { channel, place }),
    }
}
