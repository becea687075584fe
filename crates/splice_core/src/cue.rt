//! Cues.

/// What a bridge should sound like.
#[derive(Clone, Copy, PartialEq, Eq)]
pub enum Target {
    /// A linear fade from the take before the bridge to the take after it.
    Fade,
    /// A straight line of weighted sums, whatever the takes hold there: from `a` before the bridge to `b` after it,
    /// each from -4096 to 4096. If both are 0, it is silence.
    Line { a: i32, b: i32 },
}

/// A part of a take, and the bridge to the next cue. Places and lengths are in bits of a channel.
#[derive(Drop)]
pub struct Cue {
    /// The number of the take, counted from 0.
    pub take: usize,
    /// The first bit that is cut from each channel of the take, at most `2^36`.
    pub start: usize,
    /// The place after the last bit that is cut, at most `2^36`.
    pub stop: usize,
    /// The length of the bridge to the next cue, at most 4096; 0 is a plain cut.
    pub bridge: usize,
    /// What the bridge should sound like.
    pub target: Target,
    /// The text of the mark at the cue's first bit, at most 255 bytes.
    pub title: Option<String>,
}
