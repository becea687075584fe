//! Why a master is rejected by a null test.

use form_core::ReadFault;
use request_core::Shape;

/// Why a master is rejected by a null test: the first reason that applies.
#[derive(Clone, Copy)]
pub enum NullReason {
    /// Its file holds no recording, for this fault, its first.
    Unread(ReadFault),
    /// It has another sample rate or another number of channels than the takes.
    Shape {
        /// What the master has.
        found: Shape,
        /// What the takes have.
        wanted: Shape,
    },
    /// Its channels don't have as many bits as the mix has places.
    Length {
        /// How many bits each of its channels has.
        found: usize,
        /// How many places the mix has.
        wanted: usize,
    },
    /// A place is too loud to be judged.
    Loud {
        /// The number of the channel.
        channel: usize,
        /// The place, in bits of the channel.
        place: usize,
    },
    /// The residual at a place is above the mix's limit.
    Residual {
        /// The number of the channel.
        channel: usize,
        /// The place, in bits of the channel.
        place: usize,
    },
}
