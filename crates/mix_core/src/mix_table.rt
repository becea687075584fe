//! Reads the table `mix`.

ghost use Rattle.std.specs.Prelude.{map, Vec, ℤ};
ghost use Rattle.std.specs.declared.alloc.Global.{Global};
ghost use Rattle.toml.specs.View.{view, table_view, items_view};
ghost use Rattle.clip_core.specs.Clips.{clip_content};
ghost use Rattle.clip_core.specs.Contents.{mix_content};
ghost use Rattle.project_core.specs.Steps.{Gives};
ghost use Rattle.project_core.specs.Tables.{list_of};
ghost use Rattle.mix_core.specs.ReadingMix.{clips_of, decoder_of, decoders_of, mix_of, parts_at};

use crate::clip_table::clip_of;
use crate::numbers::{audible_at, number_at, number_or_least_at, taps_at};
use crate::overlap::are_apart;
use clip_core::{Clip, Mix};
use project_core::table::{items_at, table_of};
use project_core::{Key, ProjectFault, Table, takes_at};
use std::alloc::Global;
use toml::Value;

/// The greatest full scale of decoded sound.
pub const MAX_UNIT: usize = 1 << 28;

/// The greatest residual that a mix may accept.
pub const MAX_LIMIT: usize = (1 << 63) - 1;

/// Places at multiples of at most this are judged.
pub const MAX_EVERY: usize = 64;

/// The most decoders.
pub const MAX_DECODERS: usize = 16;

/// The greatest sum of the absolute values of a decoder's taps.
pub const MAX_DECODER_SUM: u64 = 1 << 28;

/// The most clips.
pub const MAX_CLIPS: usize = 1024;

/// The keys of the table `mix`.
pub const MIX_KEYS: [Key; 7] = [
    Key::Unit,
    Key::Audible,
    Key::Limit,
    Key::Every,
    Key::Takes,
    Key::Decoder,
    Key::Clip,
];

/// The keys of a decoder.
pub const DECODER_KEYS: [Key; 1] = [Key::Taps];

// The decoders and the clips of a mix.
#[derive(Drop)]
struct Parts {
    decoders: Vec<Vec<i32>>,
    clips: Vec<Clip>,
}

/// The mix of the value at `mix`.
#[tactic(auto, unfolding(crate::specs::ReadingMix::mix_of))]
pub(crate) fn mix_of(alloc: Global, value: &Value) -> Result<Mix, ProjectFault>
    ensures { Gives mix_content result (mix_of (view value.now)) }
{
    let place = Table::Mix;
    let table = table_of(value, Key::Mix, place, &MIX_KEYS)?;
    let unit = number_at(table, Key::Unit, place, 1, MAX_UNIT + 1)?;
    let audible = audible_at(alloc, table)?;
    let limit = number_at(table, Key::Limit, place, 0, MAX_LIMIT + 1)?;
    let every = number_or_least_at(table, Key::Every, place, 1, MAX_EVERY + 1)?;
    let takes = takes_at(alloc, table, place)?;
    let parts = parts_at(alloc, table, takes.len())?;
    Ok(Mix {
        unit: unit as u32,
        audible,
        limit: limit as u64,
        every,
        takes,
        decoders: parts.decoders,
        clips: parts.clips,
    })
}

// The decoders and the clips of a mix with `takes` takes: first how many there are, and then each.
#[tactic(auto)]
fn parts_at(alloc: Global, table: &toml::Table, takes: usize) -> Result<Parts, ProjectFault>
    ensures { Gives (λ p. (map (λ (taps : Vec ℤ Global). taps.items) p.decoders.items, map clip_content p.clips.items)) result (parts_at takes (table_view table.now)) }
{
    let decoders = items_at(table, Key::Decoder, Table::Mix, MAX_DECODERS)?;
    let clips = items_at(table, Key::Clip, Table::Mix, MAX_CLIPS)?;
    let decoders = decoders_of(alloc, decoders)?;
    let clips = clips_of(alloc, clips, takes, decoders.len())?;
    if !are_apart(&clips) {
        return Err(ProjectFault::OutOfLimit(Key::Clip, Table::Mix));
    }
    Ok(Parts { decoders, clips })
}

// The decoders that the values state, one each.
#[tactic(auto, unfolding(crate::specs::ReadingMix::decoders_of))]
fn decoders_of(alloc: Global, values: &[Value]) -> Result<Vec<Vec<i32>>, ProjectFault>
    ensures { Gives (λ v. map (λ (taps : Vec ℤ Global). taps.items) v.items) result (decoders_of (list_of (items_view values.now))) }
{
    let mut decoders = Vec::new(alloc);
    for (number, value) in values.iter().enumerate() {
        let taps = decoder_of(alloc, value, number)?;
        decoders.push(taps)?;
    }
    Ok(decoders)
}

// The taps of the decoder that a value states. `number` is its number.
#[tactic(auto, unfolding(crate::specs::ReadingMix::decoder_of))]
fn decoder_of(alloc: Global, value: &Value, number: usize) -> Result<Vec<i32>, ProjectFault>
    ensures { Gives (λ v. v.items) result (decoder_of number (view value.now)) }
{
    let place = Table::Decoder(number);
    let table = table_of(value, Key::Decoder, place, &DECODER_KEYS)?;
    taps_at(alloc, table, Key::Taps, place, MAX_DECODER_SUM)
}

// The clips that the values state, one each.
#[tactic(auto, unfolding(crate::specs::ReadingMix::clips_of))]
fn clips_of(
    alloc: Global,
    values: &[Value],
    takes: usize,
    decoders: usize,
) -> Result<Vec<Clip>, ProjectFault>
    ensures { Gives (λ v. map clip_content v.items) result (clips_of takes decoders (list_of (items_view values.now))) }
{
    let mut clips = Vec::new(alloc);
    for (number, value) in values.iter().enumerate() {
        let clip = clip_of(alloc, value, number, takes, decoders)?;
        clips.push(clip)?;
    }
    Ok(clips)
}
