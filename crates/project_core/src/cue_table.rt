//! Reads a table of the array `cue`.

ghost use Rattle.std.specs.Prelude.{◌≡◌, ◌≤◌, option_map, string_bytes};
ghost use Rattle.toml.specs.View.{view, table_view};
ghost use Rattle.splice_core.specs.Cues.{cue_content};
ghost use Rattle.project_core.specs.Steps.{Gives};
ghost use Rattle.project_core.specs.ReadingCue.{bridge_at, cue_of, fade_at, is_end, line_at, line_of, target_at, target_name_at, title_at, title_of};

use crate::fault::ProjectFault;
use crate::key::{Key, Table};
use crate::table::{below, find, integer_of, integers_at, limited_at, table_of, text_of};
use crate::takes::take_number_at;
use splice_core::{Cue, Target};
use std::alloc::Global;
use toml::Value;

/// The most bits that a channel of a take may have.
pub const MAX_PLACE: usize = 1 << 36;

/// The longest bridge, in bits.
pub const MAX_BRIDGE: usize = 4096;

/// The greatest absolute value of an end of a line.
pub const MAX_END: u32 = 4096;

/// The longest title, in bytes.
pub const MAX_TITLE: usize = 255;

/// The keys of a cue.
pub const CUE_KEYS: [Key; 7] = [
    Key::Take,
    Key::Start,
    Key::Stop,
    Key::Bridge,
    Key::Target,
    Key::Line,
    Key::Title,
];

/// The cue that a value states. `number` is its number, and the project has `weights` weights and `takes` takes.
#[tactic(auto, unfolding(crate::specs::ReadingCue::cue_of))]
pub(crate) fn cue_of(
    alloc: Global,
    value: &Value,
    number: usize,
    weights: usize,
    takes: usize,
) -> Result<Cue, ProjectFault>
    requires { weights ≤ 12 }
    ensures { Gives cue_content result (cue_of weights takes number (view value.now)) }
{
    let place = Table::Cue(number);
    let table = table_of(value, Key::Cue, place, &CUE_KEYS)?;
    let take = take_number_at(table, place, number, takes)?;
    let start = limited_at(table, Key::Start, place, MAX_PLACE)?;
    let stop = limited_at(table, Key::Stop, place, MAX_PLACE)?;
    let bridge = bridge_at(table, place)?;
    let target = target_at(alloc, table, place)?;
    let title = title_at(alloc, table, place)?;
    if stop + 1 < start + weights {
        return Err(ProjectFault::ShortCue {
            cue: number,
            start,
            stop,
            weights,
        });
    }
    Ok(Cue {
        take,
        start,
        stop,
        bridge,
        target,
        title,
    })
}

// The length of the cue's bridge, 0 if it is left out.
#[tactic(auto, unfolding(crate::specs::ReadingCue::bridge_at))]
fn bridge_at(table: &toml::Table, cue: Table) -> Result<usize, ProjectFault>
    ensures { Gives (λ n. n) result (bridge_at cue (table_view table.now)) }
{
    let Some(value) = find(table, Key::Bridge) else {
        return Ok(0);
    };
    let integer = integer_of(value, Key::Bridge, cue)?;
    below(integer, MAX_BRIDGE + 1).ok_or(ProjectFault::OutOfLimit(Key::Bridge, cue))
}

// The cue's target: first its name, and then its ends.
#[tactic(auto, unfolding(crate::specs::ReadingCue::target_at))]
fn target_at(alloc: Global, table: &toml::Table, cue: Table) -> Result<Target, ProjectFault>
    ensures { Gives (λ t. t) result (target_at cue (table_view table.now)) }
{
    match target_name_at(table, cue)? {
        "fade" => fade_at(table, cue),
        "line" => line_at(alloc, table, cue),
        _ => Err(ProjectFault::OutOfLimit(Key::Target, cue)),
    }
}

// The name of the cue's target, that of the fade if it is left out.
#[tactic(auto, unfolding(crate::specs::ReadingCue::target_name_at))]
fn target_name_at(table: &toml::Table, cue: Table) -> Result<&str, ProjectFault>
    ensures { Gives (λ t. t.now) result (target_name_at cue (table_view table.now)) }
{
    match find(table, Key::Target) {
        Some(value) => text_of(value, Key::Target, cue),
        None => Ok("fade"),
    }
}

// The fade, which has no ends.
#[tactic(auto, unfolding(crate::specs::ReadingCue::fade_at))]
fn fade_at(table: &toml::Table, cue: Table) -> Result<Target, ProjectFault>
    ensures { Gives (λ t. t) result (fade_at cue (table_view table.now)) }
{
    match find(table, Key::Line) {
        Some(_) => Err(ProjectFault::OutOfLimit(Key::Line, cue)),
        None => Ok(Target::Fade),
    }
}

// The line whose ends are given: two numbers within the limits.
#[tactic(auto, unfolding(crate::specs::ReadingCue::line_at))]
fn line_at(alloc: Global, table: &toml::Table, cue: Table) -> Result<Target, ProjectFault>
    ensures { Gives (λ t. t) result (line_at cue (table_view table.now)) }
{
    let ends = integers_at(alloc, table, Key::Line, cue)?;
    line_of(&ends, cue)
}

fn line_of(ends: &[i32], cue: Table) -> Result<Target, ProjectFault>
    ensures { Gives (λ t. t) result (line_of cue ends.now) }
{
    match ends {
        [a, b] if is_end(*a) && is_end(*b) => Ok(Target::Line { a: *a, b: *b }),
        _ => Err(ProjectFault::OutOfLimit(Key::Line, cue)),
    }
}

fn is_end(end: i32) -> bool
    ensures { result ≡ is_end end }
{
    end.unsigned_abs() <= MAX_END
}

// The cue's title, if it has one.
#[tactic(auto, unfolding(crate::specs::ReadingCue::title_at))]
fn title_at(alloc: Global, table: &toml::Table, cue: Table) -> Result<Option<String>, ProjectFault>
    ensures { Gives (λ o. option_map string_bytes o) result (title_at cue (table_view table.now)) }
{
    let Some(value) = find(table, Key::Title) else {
        return Ok(None);
    };
    let title = title_of(value, cue)?;
    Ok(Some(String::from_str(alloc, title)?))
}

// The title that a value states, which must not be too long.
fn title_of(value: &Value, cue: Table) -> Result<&str, ProjectFault>
    ensures { Gives (λ t. t.now) result (title_of cue (view value.now)) }
{
    let title = text_of(value, Key::Title, cue)?;
    if title.len() > MAX_TITLE {
        return Err(ProjectFault::OutOfLimit(Key::Title, cue));
    }
    Ok(title)
}
