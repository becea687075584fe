//! The straight lines on which the gain of a clip is.

ghost use Rattle.clip_core.specs.Gains.{IsLine};

use crate::gain::Point;

/// A straight line on which the gain of a clip is, from one of its places up to but not with another one, at most
/// `2^36`. Places count from the clip's first one.
#[derive(Clone, Copy)]
pub struct Line {
    pub(crate) from: Point,
    pub(crate) to: Point,
    ghost limits: { IsLine from to },
}
