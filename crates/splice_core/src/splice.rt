//! Splices.

ghost use Rattle.std.specs.Prelude.{map, length};
ghost use Rattle.splice_core.specs.Cues.{cue_content, IsSplicing};

use crate::cue::Cue;

/// Takes, the cues that are cut from them, and the weights by which bridges are judged, all within their
/// limits. The last cue has no bridge.
#[derive(Drop)]
pub struct Splice {
    /// What the newest bit, the one before it and so on count in a sum over bits: 2 to 12 weights, whose absolute
    /// values add up to at most 4096.
    pub weights: Vec<i32>,
    /// The names of the takes: 1 to 16.
    pub takes: Vec<String>,
    /// The cues in the order of the master: 1 to 256.
    pub cues: Vec<Cue>,
    ghost limits: { IsSplicing weights.items (length takes.items) (map cue_content cues.items) },
}
