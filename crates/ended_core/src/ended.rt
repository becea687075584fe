//! What a command came to.

use crate::neighbour_reason::NeighbourReason;
use crate::null_reason::NullReason;
use dop_core::DopFault;
use folder_core::{FRONT, Failure};
use request_core::{Fault, Reason, SpanFault};
use std::io::Error;

/// What a command came to, as far as there is something to explain.
#[derive(Clone, Copy)]
pub enum Ended {
    /// The call was refused.
    Fault(Fault),
    /// The call was refused, and the file gave no byte that was opened last.
    Nothing(Fault),
    /// The part that is to be played isn't there.
    NoPart(SpanFault),
    /// The file before is no neighbour of the one that is played, for this reason.
    NoPrevious(NeighbourReason),
    /// The file after is no neighbour of the one that is played, for this reason.
    NoNext(NeighbourReason),
    /// A file isn't one of DoP samples, for this fault.
    DopUnread(DopFault),
    /// No channel type has the loudspeakers of a file's channels.
    NoChannelType,
    /// A file could not be opened or read.
    ReadFailed,
    /// A file could not be created or written; this is what failed last, if anything is known.
    WriteFailed(Option<Failure>),
    /// Standard output did not take the answer.
    Unprinted(Error),
    /// A master was rejected for this reason.
    Rejected(Reason),
    /// A master was rejected by a null test for this reason.
    NotNull(NullReason),
    /// A file was played: the first bytes of its WAVE file, and how many there are.
    Played([u8; FRONT], u64),
    /// The same of a file that was played with the loudspeakers of its channels, and their mask.
    Spoken([u8; FRONT], u64, u32),
    /// A line of a list of sums is none of sums, the first being 1, or for 0 the list has no line or is no text.
    ListRefused(usize),
}

/// A file of `sum`, and where its name is.
#[derive(Clone, Copy)]
pub enum Summed<'a> {
    /// It is a word, and is to be summed.
    File(&'a str),
    /// It is a word, and is a list.
    List(&'a str),
    /// It is in the line of this number of a list, which is named second.
    Listed(&'a str, usize, &'a str),
}
