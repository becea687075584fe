//! The gain of a clip.

ghost use Rattle.std.specs.Prelude.{◌≡◌};
ghost use Rattle.clip_core.specs.Clips.{AreGains, gain_content, points_of};
ghost use Rattle.clip_core.specs.Gains.{ArePoints};

/// A point of a clip's gain: between two points the gain is on a straight line.
#[derive(Clone, Copy)]
pub struct Point {
    /// The place, counted from the clip's first one, at most `2^36`.
    pub place: usize,
    /// The gain there: `2^24` is a gain of 1. Its absolute value is at most `2^26`.
    pub gain: i32,
}

/// The gains of a clip.
#[derive(Drop)]
pub enum Gains {
    /// A gain of 1 at all places.
    Full,
    /// The same points for all channels: 1 to 4096, each at a greater place than the one before.
    Alike(Vec<Point>),
    /// Such points for each channel.
    Each(Vec<Vec<Point>>),
}

impl Gains {
    /// The points of a channel, within their limits. There are none where all places have a gain of 1, nor for a channel
    /// that no points are given for.
    pub fn points(&self, channel: usize) -> &[Point]
        ensures points { result.now ≡ points_of (gain_content self.now) channel }
        ensures within { AreGains (gain_content self.now) → ArePoints result.now }
    {
        match self {
            Gains::Full => &[],
            Gains::Alike(points) => points.as_slice(),
            Gains::Each(lists) => match lists.get(channel) {
                Some(points) => points.as_slice(),
                None => &[],
            },
        }
    }
}
