//! Places in a recording: [`place_named`] reads the [`Place`] that a word names.
//!
//! What it promises: which place a word names (frames and marks in `specs/Places.antt`, times in `specs/Times.antt`).
//!
//! ```text
//! place_named("1:30")    // Some(Place::Time(90_000_000_000))
//! place_named("#3")      // Some(Place::Mark(3))
//! ```
#![tactic(auto)]

mod place;

pub use place::{Place, place_named};
