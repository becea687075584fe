//! Where a master is edited.

ghost use Rattle.std.specs.Prelude.{◌^◌, ◌<◌, ◌≤◌, length, map};
ghost use Rattle.null_core.specs.Own.{IsEdited};
ghost use Rattle.null_core.specs.Parts.{IsAsked, asked_content, part_content};
ghost use Rattle.null_core.specs.Walks.{AreEdited, FindsEdited, FindsSpan, IsOwnStart};

use crate::asked::Asked;
use crate::channel::Channel;
use crate::own::{own_run, past_others};
use crate::part::Part;

/// Places that are edited, from the first to the one after the last.
#[derive(Clone, Copy)]
pub struct Span {
    /// The first place.
    pub start: usize,
    /// The place after the last.
    pub stop: usize,
}

/// The next places from one on that are edited: those from which `audible` reaches places that aren't all the own bits of
/// one take.
pub(crate) fn next_span(asked: Asked<'_>, bits: &Channel<'_>, from: usize) -> Option<Span>
    requires asked { IsAsked (asked_content asked) }
    requires inside { from ≤ length bits.now }
    ensures { FindsSpan (asked_content asked.entry) bits.now from result }
{
    let start = first_edited(asked, bits, from)?;
    let stop = first_unedited(asked, bits, start);
    Some(Span { start, stop })
}

// The first edited place from one on.
fn first_edited(asked: Asked<'_>, bits: &Channel<'_>, from: usize) -> Option<usize>
    requires asked { IsAsked (asked_content asked) }
    requires inside { from ≤ length bits.now }
    ensures { FindsEdited (asked_content asked.entry) bits.now from result }
{
    let reach = asked.audible.len() / 2;
    let count = bits.len();
    let mut place = from;
    while place < count {
        let run = own_run(asked.parts, bits, place.saturating_sub(reach), count);
        match run.source {
            None => return Some(place),
            Some(_) if run.until == count => return None,
            Some(_) if run.until <= place + reach => return Some(place),
            Some(_) => place = run.until - reach,
        }
    }
    None
}

// The first place from an edited one on that isn't edited, or the end of the channel.
fn first_unedited(asked: Asked<'_>, bits: &Channel<'_>, start: usize) -> usize
    requires asked { IsAsked (asked_content asked) }
    requires inside { start < length bits.now }
    requires edited { IsEdited (asked_content asked) bits.now start }
    ensures { AreEdited (asked_content asked.entry) bits.now start result }
{
    let reach = asked.audible.len() / 2;
    let count = bits.len();
    let mut place = start;
    while place < count {
        let low = place.saturating_sub(reach);
        let high = (place + reach + 1).min(count);
        let next = own_start(asked.parts, bits, low, high);
        if next == low {
            return place;
        }
        place = next + reach;
    }
    count
}

// Place `low`, if the places from it up to `high` are all the own bits of one take. Otherwise a later place: from the one
// before it up to `high` not all places are the own bits of one take.
fn own_start(parts: &[Part<'_>], bits: &Channel<'_>, low: usize, high: usize) -> usize
    requires in_order { low < high }
    requires inside { high ≤ length bits.now }
    requires fits { high ≤ 2 ^ 36 }
    ensures { IsOwnStart (map part_content parts.now) bits.now low high result }
{
    let past = past_others(parts, bits, low, high);
    if past > low {
        return past;
    }
    let run = own_run(parts, bits, low, high);
    match run.source {
        Some(_) if run.until >= high => low,
        Some(_) => run.until,
        None => low + 1,
    }
}
