//! Why a file is no neighbour of one that is played.

use request_core::Fault;

/// Why a file is no neighbour of one that is played.
#[derive(Clone, Copy)]
pub enum NeighbourReason {
    /// It could not be opened or read.
    Unread,
    /// It holds no recording, for this fault.
    Refused(Fault),
    /// It has another rate.
    Rate,
    /// It has another number of channels.
    Channels,
    /// It doesn't end with a whole byte of each channel.
    Rest,
}
