//! Where a master has a take's own bits.

ghost use Rattle.std.specs.Prelude.{◌≡◌, ℕ, ◌+◌, ◌-◌, ◌^◌, ◌<◌, ◌≤◌, ◌↔◌, IsTrue, length, map};
ghost use Rattle.null_core.specs.Own.{IsHeard};
ghost use Rattle.null_core.specs.Parts.{part_content};
ghost use Rattle.null_core.specs.Walks.{AreAlikeTo, HasPlaces, HearSame, IsAlikeTo, IsOwnFrom, IsOwnPiece, IsOwnTo, IsPastHeard, IsPastOther, IsPastOthers};

use crate::alone::{Source, alone_at};
use crate::channel::Channel;
use crate::part::Part;
use clip_core::line_at;

/// Whose own bits the master has from a place on.
#[derive(Clone, Copy)]
pub struct OwnRun {
    /// The take whose own bits they are, if there is one.
    pub source: Option<Source>,
    /// The place up to which this holds.
    pub until: usize,
}

/// Whose own bits a channel of the master has from place `m` on, and how far, up to place `high` at most. If they are a
/// take's, the run is not longer, or ends at `high`.
pub(crate) fn own_run(parts: &[Part<'_>], bits: &Channel<'_>, m: usize, high: usize) -> OwnRun
    requires in_order { m < high }
    requires inside { high ≤ length bits.now }
    ensures { IsOwnFrom (map part_content parts.now) bits.now m high result }
{
    let first = own_piece(parts, bits, m, high);
    match first.source {
        Some(source) => OwnRun {
            source: Some(source),
            until: own_until(parts, bits, source, first.until, high),
        },
        None => first,
    }
}

// The place up to which the own bits of a take go on from place `from`, `high` at most.
fn own_until(
    parts: &[Part<'_>],
    bits: &Channel<'_>,
    source: Source,
    from: usize,
    high: usize,
) -> usize
    requires in_order { from ≤ high }
    requires inside { high ≤ length bits.now }
    ensures { IsOwnTo (map part_content parts.now) bits.now source from high result }
{
    let mut until = from;
    while until < high {
        let next = own_piece(parts, bits, until, high);
        if !is_source(next.source, source) {
            return until;
        }
        until = next.until;
    }
    until
}

// Whether a take was found, and is this one, as far ahead.
fn is_source(found: Option<Source>, source: Source) -> bool
    ensures { IsTrue result ↔ found ≡ Some source }
{
    match found {
        Some(other) => other.take == source.take && other.ahead == source.ahead,
        None => false,
    }
}

// Whose own bits the master has from place `m` on, as far as the same parts are heard, up to place `high` at most.
fn own_piece(parts: &[Part<'_>], bits: &Channel<'_>, m: usize, high: usize) -> OwnRun
    requires in_order { m < high }
    requires inside { high ≤ length bits.now }
    ensures { IsOwnPiece (map part_content parts.now) bits.now m high result }
{
    let _count = bits.len();
    let alone = alone_at(parts, m);
    let until = alone.until.min(high);
    match alone.source {
        Some(source) => piece_of(source, m, alike_until(parts, bits, m, until)),
        None => OwnRun {
            source: None,
            until,
        },
    }
}

// The own bits of a take from place `m` up to another one, or one place that isn't its own.
fn piece_of(source: Source, m: usize, until: usize) -> OwnRun
    requires { m < 2 ^ 63 }
    ensures none { until ≡ m → result ≡ record { source = None; until = m + 1 } }
    ensures own { m < until → result ≡ record { source = Some source; until = until } }
{
    if until > m {
        return OwnRun {
            source: Some(source),
            until,
        };
    }
    OwnRun {
        source: None,
        until: m + 1,
    }
}

/// The place after one that is no take's own, from place `low` up to `high`, or `low` if none is found. It looks from the
/// last place to the first, as far as the same parts are heard.
pub(crate) fn past_others(parts: &[Part<'_>], bits: &Channel<'_>, low: usize, high: usize) -> usize
    requires in_order { low < high }
    requires inside { high ≤ length bits.now }
    requires fits { high ≤ 2 ^ 36 }
    ensures { IsPastOthers (map part_content parts.now) bits.now low high result }
{
    let alone = alone_at(parts, low);
    let end = alone.until.min(high);
    match alone.source {
        Some(_) => past_heard(parts, bits, low, end),
        None => end,
    }
}

// The place after one from `low` up to `end` at which the master hasn't the bit of a part that is heard, or `low`.
fn past_heard(parts: &[Part<'_>], bits: &Channel<'_>, low: usize, end: usize) -> usize
    requires in_order { low < end }
    requires inside { end ≤ length bits.now }
    requires fits { end ≤ 2 ^ 36 }
    requires heard { (k : ℕ) → low ≤ k → k < end → HearSame (map part_content parts.now) low k }
    ensures { IsPastHeard (map part_content parts.now) bits.now low end result }
{
    let mut past = low;
    for part in parts {
        if is_heard(part, low) {
            past = past_other(part, bits, past, end);
        }
    }
    past
}

// The place up to which the master has the bits of each part that is heard, from place `m` on.
fn alike_until(parts: &[Part<'_>], bits: &Channel<'_>, m: usize, until: usize) -> usize
    requires in_order { m < until }
    requires inside { until ≤ length bits.now }
    requires fits { until ≤ 2 ^ 36 }
    requires heard { (k : ℕ) → m ≤ k → k < until → HearSame (map part_content parts.now) m k }
    ensures { AreAlikeTo (map part_content parts.now) bits.now m until result }
{
    let mut end = until;
    for part in parts {
        if is_heard(part, m) {
            end = first_other(part, bits, m, end);
        }
    }
    end
}

// Whether a part is heard at a place.
fn is_heard(part: &Part<'_>, m: usize) -> bool
    requires { m < 2 ^ 36 }
    ensures { IsTrue result ↔ IsHeard m (part_content part.now) }
{
    if m < part.at {
        return false;
    }
    let place = m - part.at;
    place < part.size && line_at(part.points, place).gain_at(place) != 0
}

// Which of its bits a part has at one of its places, or at the one after them.
fn own_bit(part: &Part<'_>, place: usize) -> usize
    requires begun { part.now.at ≤ place }
    requires not_ended { place ≤ part.now.at + part.now.size }
    ensures value { result ≡ part.now.start + (place - part.now.at) }
    ensures fits { result + (part.now.at + part.now.size - place) ≤ 2 ^ 36 }
{
    let count = part.bits.len();
    prove!(part.start <= count);
    part.start + (place - part.at)
}

// The first place from `m` up to `end` at which the master has another bit than the part, or `end`.
fn first_other(part: &Part<'_>, bits: &Channel<'_>, m: usize, end: usize) -> usize
    requires { HasPlaces (part_content part.now) bits.now m end }
    ensures { IsAlikeTo (part_content part.now) bits.now m end result }
{
    let own = own_bit(part, m);
    m + bits.alike(m, part.bits, own, end - m)
}

// The place after the last one from `low` up to `end` at which the master has another bit than the part, or `low`.
fn past_other(part: &Part<'_>, bits: &Channel<'_>, low: usize, end: usize) -> usize
    requires { HasPlaces (part_content part.now) bits.now low end }
    ensures { IsPastOther (part_content part.now) bits.now low end result }
{
    let own = own_bit(part, low);
    for place in (low..end).rev() {
        if bits.get(place) != part.bits.get(own + (place - low)) {
            return place + 1;
        }
    }
    low
}
