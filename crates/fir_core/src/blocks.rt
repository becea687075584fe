//! Eight neighbouring bytes, and the places in their rows of what they add.

ghost use Rattle.std.specs.Prelude.{◌≡◌, ◌+◌, ◌*◌, ◌/◌, ◌%◌, ◌<◌, ◌≤◌, length};
ghost use Rattle.fir_core.specs.Blocks.{ArePlaces, AreFour, HasEntries, IsAfter, IsBlockOf, IsReached};

use crate::lookup::{Block, Spot};

/// Four neighbouring bytes.
#[derive(Clone, Copy)]
struct Spots<'a> {
    one: Spot<'a>,
    two: Spot<'a>,
    three: Spot<'a>,
    four: Spot<'a>,
    ghost follow: { AreFour one one two three four },
}

/// The byte `number` places after another one, in the same step.
#[inline(always)]
fn on<'a>(spot: Spot<'a>, number: usize) -> Spot<'a>
    requires inside { spot.place + number < spot.lookup.step }
    requires within { spot.p + number ≤ length spot.bytes.now }
    ensures { IsAfter number spot.entry result }
{
    Spot {
        lookup: spot.lookup,
        bytes: spot.bytes,
        p: spot.p + number,
        window: spot.window,
        place: spot.place + number,
    }
}

/// The byte after another one.
#[inline(always)]
pub(crate) fn next<'a>(spot: Spot<'a>) -> Spot<'a>
    requires { spot.p < length spot.bytes.now }
    ensures { IsAfter 1 spot.entry result }
{
    if spot.place + 1 < spot.lookup.step {
        return on(spot, 1);
    }
    Spot {
        lookup: spot.lookup,
        bytes: spot.bytes,
        p: spot.p + 1,
        window: spot.window + 1,
        place: 0,
    }
}

/// A byte and the three after it, which are mostly in one step.
#[inline(always)]
fn spots_from<'a>(spot: Spot<'a>) -> Spots<'a>
    requires { spot.p + 4 ≤ length spot.bytes.now }
    ensures { AreFour spot.entry result.one result.two result.three result.four }
{
    if spot.place + 3 < spot.lookup.step {
        return Spots {
            one: spot,
            two: on(spot, 1),
            three: on(spot, 2),
            four: on(spot, 3),
        };
    }
    let two = next(spot);
    let three = next(two);
    let four = next(three);
    Spots {
        one: spot,
        two,
        three,
        four,
    }
}

/// The place in the rows of what a byte adds to the windows from window `j` on.
#[inline(always)]
pub(crate) fn row_place(spot: Spot<'_>, j: usize) -> usize
    requires within { spot.p < length spot.bytes.now }
    requires reached { IsReached spot j }
    ensures { HasEntries spot.entry j result }
{
    let row = 256 * spot.place + spot.bytes[spot.p] as usize;
    4 + row * (spot.lookup.span + 8) + (j + spot.lookup.span - (spot.window + 1))
}

/// The places in the rows of what each of four bytes adds.
#[inline(always)]
fn places_of(spots: Spots<'_>, j: usize) -> [usize; 4]
    requires within { spots.one.p + 4 ≤ length spots.one.bytes.now }
    requires first { IsReached spots.one j }
    requires last { IsReached spots.four j }
    ensures { ArePlaces spots.entry.one j result }
{
    [
        row_place(spots.one, j),
        row_place(spots.two, j),
        row_place(spots.three, j),
        row_place(spots.four, j),
    ]
}

/// Eight bytes with the places in their rows for all windows below a limit that contain one of them, and the byte after
/// them.
#[inline(always)]
pub(crate) fn block_of<'a>(spot: Spot<'a>, limit: usize) -> (Block<'a>, Spot<'a>)
    requires eights { spot.p % 8 ≡ 0 }
    requires within { spot.p + 8 ≤ length spot.bytes.now }
    requires reached { spot.p + 8 + spot.lookup.step ≤ limit * spot.lookup.step + length spot.lookup.taps.now / 8 }
    ensures block { IsBlockOf spot.entry limit result.0 }
    ensures next { IsAfter 8 spot.entry result.1 }
{
    let front = spots_from(spot);
    let back = spots_from(next(front.four));
    let after = back.four.window + 1;
    let start = after.saturating_sub(spot.lookup.span);
    let number = after.min(limit) - start;
    let [a, b, c, d] = places_of(front, start);
    let [e, f, g, h] = places_of(back, start);
    let block = Block {
        lookup: spot.lookup,
        bytes: spot.bytes,
        p: spot.p,
        start,
        number,
        limit,
        at: [a, b, c, d, e, f, g, h],
    };
    (block, next(back.four))
}
