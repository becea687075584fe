//! Where a take's own bits are asked for.

ghost use Rattle.std.specs.Prelude.{◌≡◌, ◌++◌, ◌∷◌, [], ℕ, ◌^◌, ◌<◌, ◌≤◌, IsTrue, List, map};
ghost use Rattle.clip_core.specs.Lines.{IsOnLine, line_gain};
ghost use Rattle.null_core.specs.Alone.{AreHeard, HasLevel, IsLevel, IsLevelUntil, IsPartHeard, IsPartHeardFrom, IsSourceOf};
ghost use Rattle.null_core.specs.Parts.{PartContent, part_content};
ghost use Rattle.null_core.specs.Walks.{IsAloneFrom};

use crate::part::Part;
use clip_core::{Line, line_at};

// A gain of 1.
const FULL_GAIN: i32 = 1 << 24;

// No part has this place or one after it.
const MOST_PLACES: usize = 1 << 36;

/// A take, and how many bits it is ahead of the mix.
#[derive(Clone, Copy, PartialEq, Eq)]
pub struct Source {
    /// The number of the take.
    pub take: usize,
    /// How many bits it is ahead.
    pub ahead: i64,
}

/// Whose own bits are asked for from a place on.
#[derive(Clone, Copy)]
pub struct Alone {
    /// The take whose own bits are asked for, if there is one.
    pub source: Option<Source>,
    /// The place up to which this holds.
    pub until: usize,
}

// What is heard of one part or of several.
#[derive(Clone, Copy)]
enum Heard {
    // Nothing.
    Nothing,
    // One source alone, with a gain of 1.
    Single(Source),
    // Another gain than 1, or several sources.
    Mixed,
}

// What is heard from a place on, and up to where.
#[derive(Clone, Copy)]
struct HeardUntil {
    heard: Heard,
    until: usize,
}

// Which gains a gain is among.
#[derive(Clone, Copy)]
enum Level {
    // Below 0.
    Negative,
    // 0.
    Zero,
    // Between 0 and 1.
    Reduced,
    // 1.
    Full,
    // Above 1.
    Raised,
}

/// Whose own bits are asked for from place `m` on, and how far at least.
pub(crate) fn alone_at(parts: &[Part<'_>], m: usize) -> Alone
    requires { m < 2 ^ 36 }
    ensures { IsAloneFrom (map part_content parts.now) m result }
{
    let mut heard = Heard::Nothing;
    let mut until = MOST_PLACES;
    for part in parts {
        let next = part_heard(part, m);
        heard = with(heard, next.heard);
        until = until.min(next.until);
    }
    Alone {
        source: source_of(heard),
        until,
    }
}

// The source that is heard alone, if there is one.
fn source_of(heard: Heard) -> Option<Source>
    ensures { IsSourceOf heard result }
{
    match heard {
        Heard::Single(source) => Some(source),
        Heard::Nothing | Heard::Mixed => None,
    }
}

// What is heard of parts and of one more.
fn with(heard: Heard, next: Heard) -> Heard
    ensures { (parts : List PartContent) (p : PartContent) (m k : ℕ) → AreHeard heard parts m k → IsPartHeard next p m k → AreHeard result (parts ++ p ∷ []) m k }
{
    match next {
        Heard::Nothing => heard,
        Heard::Single(source) => with_single(heard, source),
        Heard::Mixed => Heard::Mixed,
    }
}

// What is heard of parts and of one more that has a gain of 1.
fn with_single(heard: Heard, source: Source) -> Heard
    ensures { (parts : List PartContent) (p : PartContent) (m k : ℕ) → AreHeard heard parts m k → IsPartHeard (Heard.Single source) p m k → AreHeard result (parts ++ p ∷ []) m k }
{
    match heard {
        Heard::Nothing => Heard::Single(source),
        Heard::Single(other) => { if other == source { heard } else { Heard::Mixed } }
        Heard::Mixed => Heard::Mixed,
    }
}

// What is heard of a part from place `m` on.
fn part_heard(part: &Part<'_>, m: usize) -> HeardUntil
    requires { m < 2 ^ 36 }
    ensures { IsPartHeardFrom (part_content part.now) m result }
{
    let end = part.at + part.size;
    if m < part.at {
        return HeardUntil {
            heard: Heard::Nothing,
            until: part.at,
        };
    }
    if end <= m {
        return HeardUntil {
            heard: Heard::Nothing,
            until: MOST_PLACES,
        };
    }
    let k = m - part.at;
    let line = line_at(part.points, k);
    let level = level_of(line.gain_at(k));
    HeardUntil {
        heard: heard_at(part, level),
        until: end.min(part.at + level_until(line, k, level)),
    }
}

// What is heard of a part where its gain has a level.
fn heard_at(part: &Part<'_>, level: Level) -> Heard
    ensures { (m k : ℕ) → HasLevel level (part_content part.now) m → HasLevel level (part_content part.now) k → IsPartHeard result (part_content part.now) m k }
{
    match level {
        Level::Zero => Heard::Nothing,
        Level::Full => Heard::Single(Source {
            take: part.take,
            ahead: part.ahead,
        }),
        Level::Negative | Level::Reduced | Level::Raised => Heard::Mixed,
    }
}

// The level of a gain.
fn level_of(gain: i32) -> Level
    ensures { IsLevel result gain }
{
    if gain < 0 {
        Level::Negative
    } else if gain == 0 {
        Level::Zero
    } else if gain < FULL_GAIN {
        Level::Reduced
    } else if gain == FULL_GAIN {
        Level::Full
    } else {
        Level::Raised
    }
}

// Whether a gain has a level.
fn has_level(gain: i32, level: Level) -> bool
    ensures { IsTrue result → IsLevel level gain }
{
    match level {
        Level::Negative => gain < 0,
        Level::Zero => gain == 0,
        Level::Reduced => 0 < gain && gain < FULL_GAIN,
        Level::Full => gain == FULL_GAIN,
        Level::Raised => FULL_GAIN < gain,
    }
}

// The place up to which the gain on a line keeps the level that it has at place `k`. Once it leaves a level it doesn't come
// back to it. The last place of the line is tried first: mostly it has the level as well.
fn level_until(line: Line, k: usize, level: Level) -> usize
    requires on { IsOnLine line k }
    requires level { IsLevel level (line_gain line k) }
    ensures { IsLevelUntil line k level result }
{
    let mut last = k;
    let mut after = line.until();
    let mut tried = after - 1;
    while after - last > 1 {
        if has_level(line.gain_at(tried), level) {
            last = tried;
        } else {
            after = tried;
        }
        tried = last + (after - last) / 2;
    }
    after
}
