//! The line at a place, and the gains on it.

ghost use Rattle.std.specs.Prelude.{◌≡◌, ℕ, ◌-◌, ◌^◌, ◌<◌, ◌≤◌, true, pos, ◌*ℤ◌, nat_le, unsigned_abs};
ghost use Rattle.std.specs.Int.{int_div_euclid};
ghost use Rattle.std.specs.Ordering.{int_eq};
ghost use Rattle.clip_core.specs.Gains.{ArePoints};
ghost use Rattle.clip_core.specs.Lines.{IsLineOf, IsOnLine, line_gain, until};

use crate::gain::Point;
use crate::line::Line;

// A gain of 1.
const FULL_GAIN: i32 = 1 << 24;

// No clip has this place or one after it.
const MOST_PLACES: usize = 1 << 36;

/// The line on which the gain is at a place below `2^36`.
pub fn line_at(points: &[Point], k: usize) -> Line
    requires points { ArePoints points.now }
    requires place { k < 2 ^ 36 }
    ensures place { IsOnLine result k }
    ensures gains { IsLineOf points.now result }
{
    let next = points.partition_point(
        |point: &Point| -> bool
            ensures { result ≡ nat_le point.now.place k }
        { point.place <= k },
    );
    let (before, after) = points.split_at(next);
    match (before.last(), after.first()) {
        (Some(from), Some(to)) => Line {
            from: *from,
            to: *to,
        },
        (Some(last), None) => Line {
            from: *last,
            to: Point {
                place: MOST_PLACES,
                ..*last
            },
        },
        (None, Some(first)) => Line {
            from: Point { place: 0, ..*first },
            to: *first,
        },
        (None, None) => Line {
            from: Point {
                place: 0,
                gain: FULL_GAIN,
            },
            to: Point {
                place: MOST_PLACES,
                gain: FULL_GAIN,
            },
        },
    }
}

impl Line {
    /// The place after its last one: at most `2^36`.
    pub fn until(&self) -> usize
        ensures value { result ≡ until self.now }
        ensures bound { result ≤ 2 ^ 36 }
    {
        self.to.place
    }

    /// Whether its two ends have one gain. Then all its places have it.
    pub fn is_level(&self) -> bool
        ensures ends { result ≡ int_eq self.now.from.gain self.now.to.gain }
        ensures level { result ≡ true → (k : ℕ) → line_gain self.now k ≡ self.now.from.gain }
    {
        self.from.gain == self.to.gain
    }

    /// The gain at one of its places: `2^24` is a gain of 1. Its absolute value is at most `2^26`.
    pub fn gain_at(&self, k: usize) -> i32
        requires { IsOnLine self.now k }
        ensures value { result ≡ line_gain self.now k }
        ensures bound { unsigned_abs result ≤ 2 ^ 26 }
    {
        if self.is_level() {
            return self.from.gain;
        }
        let rise = self.to.gain - self.from.gain;
        let run = self.to.place - self.from.place;
        self.from.gain + rise_after(rise, k - self.from.place, run)
    }
}

// How much a line has risen after some of its places, rounded down. (The product fits: it is below `2^27 * 2^36`.)
fn rise_after(rise: i32, places: usize, run: usize) -> i32
    requires rise { unsigned_abs rise ≤ 2 ^ 27 }
    requires places { places < run }
    requires run { run ≤ 2 ^ 36 }
    ensures { result ≡ int_div_euclid (rise *ℤ pos places) (pos run) }
{
    let risen = i64::from(rise) * places as i64;
    risen.div_euclid(run as i64) as i32
}
