//! Reads the numbers and the taps of a mix text.

ghost use Rattle.std.specs.Prelude.{◌≡◌};
ghost use Rattle.toml.specs.View.{view, table_view};
ghost use Rattle.project_core.specs.Steps.{Gives};
ghost use Rattle.mix_core.specs.Reading.{audible_at, number_at, number_of, number_or_least_at, taps_at, within};

use clip_core::total;
use project_core::table::{find, integer_of, integers_at, value_at};
use project_core::{Key, ProjectFault, Table, abs_sum};
use std::alloc::Global;
use toml::Value;

/// The most taps of a low-pass.
pub const MAX_TAPS: usize = 65_535;

/// The greatest sum of the absolute values of the taps at `audible`.
pub const MAX_AUDIBLE_SUM: u64 = (1 << 31) - 1;

/// The number at a key, from a least one up and below a bound.
#[tactic(auto, unfolding(crate::specs::Reading::number_at))]
pub(crate) fn number_at(
    table: &toml::Table,
    key: Key,
    place: Table,
    least: usize,
    bound: usize,
) -> Result<usize, ProjectFault>
    ensures { Gives (λ n. n) result (number_at key place least bound (table_view table.now)) }
{
    number_of(value_at(table, key, place)?, key, place, least, bound)
}

/// The number at a key, from a least one up and below a bound; the least one if it is left out.
#[tactic(auto, unfolding(crate::specs::Reading::number_or_least_at))]
pub(crate) fn number_or_least_at(
    table: &toml::Table,
    key: Key,
    place: Table,
    least: usize,
    bound: usize,
) -> Result<usize, ProjectFault>
    ensures { Gives (λ n. n) result (number_or_least_at key place least bound (table_view table.now)) }
{
    match find(table, key) {
        Some(value) => number_of(value, key, place, least, bound),
        None => Ok(least),
    }
}

/// The taps at a key: an odd number, at most 65,535, with absolute values that add up to at most a limit.
#[tactic(auto, unfolding(crate::specs::Reading::taps_at))]
pub(crate) fn taps_at(
    alloc: Global,
    table: &toml::Table,
    key: Key,
    place: Table,
    limit: u64,
) -> Result<Vec<i32>, ProjectFault>
    ensures { Gives (λ v. v.items) result (taps_at key place limit (table_view table.now)) }
{
    let taps = integers_at(alloc, table, key, place)?;
    if taps.len() % 2 != 1 || taps.len() > MAX_TAPS || abs_sum(&taps) > limit {
        return Err(ProjectFault::OutOfLimit(key, place));
    }
    Ok(taps)
}

/// The taps of what can be heard, which add up to more than 0.
#[tactic(auto, unfolding(crate::specs::Reading::audible_at))]
pub(crate) fn audible_at(alloc: Global, table: &toml::Table) -> Result<Vec<i32>, ProjectFault>
    ensures { Gives (λ v. v.items) result (audible_at (table_view table.now)) }
{
    let taps = taps_at(alloc, table, Key::Audible, Table::Mix, MAX_AUDIBLE_SUM)?;
    if total(&taps) <= 0 {
        return Err(ProjectFault::OutOfLimit(Key::Audible, Table::Mix));
    }
    Ok(taps)
}

// The number that the value at a key is.
#[tactic(auto, unfolding(crate::specs::Reading::number_of))]
fn number_of(
    value: &Value,
    key: Key,
    place: Table,
    least: usize,
    bound: usize,
) -> Result<usize, ProjectFault>
    ensures { Gives (λ n. n) result (number_of key place least bound (view value.now)) }
{
    let integer = integer_of(value, key, place)?;
    within(integer, least, bound).ok_or(ProjectFault::OutOfLimit(key, place))
}

// The number, if it isn't below a least one and is below a bound.
fn within(integer: i64, least: usize, bound: usize) -> Option<usize>
    ensures { result ≡ within least bound integer }
{
    match usize::try_from(integer) {
        Ok(number) if number >= least && number < bound => Some(number),
        _ => None,
    }
}
