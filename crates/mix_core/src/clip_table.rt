//! Reads a table of the array `clip`.

ghost use Rattle.toml.specs.View.{view};
ghost use Rattle.clip_core.specs.Clips.{clip_content};
ghost use Rattle.project_core.specs.Steps.{Gives};
ghost use Rattle.mix_core.specs.ReadingMix.{clip_of};

use crate::gains::gains_at;
use crate::numbers::{number_at, number_or_least_at};
use clip_core::Clip;
use project_core::table::table_of;
use project_core::{Key, MAX_PLACE, ProjectFault, Table, take_number_at};
use std::alloc::Global;
use toml::Value;

/// The keys of a clip.
pub const CLIP_KEYS: [Key; 7] = [
    Key::Take,
    Key::Decoder,
    Key::Start,
    Key::At,
    Key::Length,
    Key::Gain,
    Key::Gains,
];

/// The clip that a value states. `number` is its number, and the mix has `takes` takes and `decoders` decoders.
#[tactic(auto, unfolding(crate::specs::ReadingMix::clip_of))]
pub(crate) fn clip_of(
    alloc: Global,
    value: &Value,
    number: usize,
    takes: usize,
    decoders: usize,
) -> Result<Clip, ProjectFault>
    ensures { Gives clip_content result (clip_of takes decoders number (view value.now)) }
{
    let place = Table::Clip(number);
    let table = table_of(value, Key::Clip, place, &CLIP_KEYS)?;
    let take = take_number_at(table, place, number, takes)?;
    let decoder = number_or_least_at(table, Key::Decoder, place, 0, decoders)?;
    let start = number_at(table, Key::Start, place, 0, MAX_PLACE + 1)?;
    let at = number_at(table, Key::At, place, 0, MAX_PLACE + 1)?;
    let after = (MAX_PLACE + 1).saturating_sub(at);
    let length = number_at(table, Key::Length, place, 1, after)?;
    let gains = gains_at(alloc, table, place)?;
    Ok(Clip {
        take,
        decoder,
        start,
        at,
        length,
        gains,
    })
}
