//! Reads the table `decimate`.

ghost use Rattle.toml.specs.View.{view};
ghost use Rattle.project_core.specs.Steps.{Gives};
ghost use Rattle.project_core.specs.ReadingDecimate.{decimate_of};

use crate::fault::ProjectFault;
use crate::key::{Key, Table};
use crate::table::{integers_at, table_of, unsigned_at};
use fir_core::Taps;
use std::alloc::Global;
use toml::Value;

/// The keys of the table `decimate`.
pub const DECIMATE_KEYS: [Key; 5] = [Key::Taps, Key::Factor, Key::Delay, Key::Shift, Key::Width];

/// The decimator of the value at `decimate`.
#[tactic(auto, unfolding(crate::specs::ReadingDecimate::decimate_of))]
pub(crate) fn decimate_of(alloc: Global, value: &Value) -> Result<Taps, ProjectFault>
    ensures { Gives (λ d. d) result (decimate_of (view value.now)) }
{
    let place = Table::Decimate;
    let table = table_of(value, Key::Decimate, place, &DECIMATE_KEYS)?;
    let taps = integers_at(alloc, table, Key::Taps, place)?;
    let factor = unsigned_at(table, Key::Factor, place)?;
    let delay = unsigned_at(table, Key::Delay, place)?;
    let shift = unsigned_at(table, Key::Shift, place)?;
    let width = unsigned_at(table, Key::Width, place)?;
    Ok(Taps::new(alloc, &taps, factor, delay, shift, width)?)
}
