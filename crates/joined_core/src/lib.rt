//! Frames of a recording whose bytes come one after the other, a byte of each channel in turn, and whose end isn't known
//! before: files that follow each other make such a recording.
//!
//! Given are the bits themselves ([`BitGiver`]) or frames by a filter ([`FrameGiver`]); a [`Giver`] is either.
//!
//! Definitions that contracts use (`specs/Givers.antt`): `way_of` a giver is the frames of a recording as it gives them,
//! and `HasGiven bytes given g` says what it gave after which bytes.
#![tactic(auto)]

mod bits;
mod frames;
mod giver;
mod laws;

pub use bits::BitGiver;
pub use frames::FrameGiver;
pub use giver::Giver;
pub use laws::given_comes_first;
