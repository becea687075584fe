//! What a splice is: takes, the cues that are cut from them, and how the bridges between the cues are judged.
//!
//! Places and lengths are in bits of a channel. A [`Splice`] has 2 to 12 weights, 1 to 16 takes and 1 to 256 cues. As
//! long as it lives it keeps these limits, those of each cue, and that the last cue has no bridge. So whoever gets a
//! [`Splice`] need not check them again. Nothing is read here: `project_core` reads a splice from a text, and whoever
//! makes one by hand proves the limits.
//!
//! Definitions that contracts use:
//! - `splice_content` and `cue_content` (`specs/Splices.antt`, `specs/Cues.antt`): what is held, as lists and numbers.
//! - `IsSplicing`, `AreWeights`, `IsCueWithin` and `IsTarget` (`specs/Cues.antt`): the limits.
//!
//! What it promises: every [`Splice`] is within its limits. The crate has no functions.
//!
//! ```text
//! let Splice { weights, takes, cues, .. } = splice;
//! cues[0].bridge         // bits between the first cue and the second, 0 to 4096
//! ```
#![tactic(auto)]

mod cue;
mod splice;

pub use cue::{Cue, Target};
pub use splice::Splice;
