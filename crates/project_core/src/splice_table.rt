//! Reads the table `splice`.

ghost use Rattle.std.specs.Prelude.{◌≡◌, ◌≤◌, length, map, unsigned_abs};
ghost use Rattle.std.specs.List.{sum_by};
ghost use Rattle.toml.specs.View.{view, table_view, items_view};
ghost use Rattle.splice_core.specs.Cues.{cue_content, last_bridge};
ghost use Rattle.splice_core.specs.Splices.{splice_content};
ghost use Rattle.project_core.specs.Steps.{Gives};
ghost use Rattle.project_core.specs.Tables.{list_of};
ghost use Rattle.project_core.specs.ReadingSplice.{cues_at, cues_of, splice_of, weights_at};

use crate::cue_table::cue_of;
use crate::fault::ProjectFault;
use crate::key::{Key, Table};
use crate::table::{integers_at, items_at, table_of};
use crate::takes::takes_at;
use splice_core::{Cue, Splice};
use std::alloc::Global;
use toml::Value;

/// The most weights.
pub const MAX_WEIGHTS: usize = 12;

/// The greatest sum of the absolute values of weights.
pub const MAX_WEIGHT_SUM: u64 = 4096;

/// The most cues.
pub const MAX_CUES: usize = 256;

/// The keys of the table `splice`.
pub const SPLICE_KEYS: [Key; 3] = [Key::Weights, Key::Takes, Key::Cue];

/// The splice of the value at `splice`.
#[tactic(auto, unfolding(crate::specs::ReadingSplice::splice_of))]
pub(crate) fn splice_of(alloc: Global, value: &Value) -> Result<Splice, ProjectFault>
    ensures { Gives splice_content result (splice_of (view value.now)) }
{
    let table = table_of(value, Key::Splice, Table::Splice, &SPLICE_KEYS)?;
    let weights = weights_at(alloc, table)?;
    let takes = takes_at(alloc, table, Table::Splice)?;
    let cues = cues_at(alloc, table, weights.len(), takes.len())?;
    let bridge = last_bridge(&cues);
    if bridge != 0 {
        let cue = cues.len().saturating_sub(1);
        return Err(ProjectFault::LastBridge { cue, bridge });
    }
    Ok(Splice {
        weights,
        takes,
        cues,
    })
}

// 2 to 12 weights, with absolute values that add up to at most 4096.
#[tactic(auto, unfolding(crate::specs::ReadingSplice::weights_at))]
fn weights_at(alloc: Global, table: &toml::Table) -> Result<Vec<i32>, ProjectFault>
    ensures { Gives (λ v. v.items) result (weights_at (table_view table.now)) }
{
    let weights = integers_at(alloc, table, Key::Weights, Table::Splice)?;
    if weights.len() < 2 || weights.len() > MAX_WEIGHTS || abs_sum(&weights) > MAX_WEIGHT_SUM {
        return Err(ProjectFault::OutOfLimit(Key::Weights, Table::Splice));
    }
    Ok(weights)
}

// 1 to 256 cues of a project with `weights` weights and `takes` takes.
#[tactic(auto, unfolding(crate::specs::ReadingSplice::cues_at))]
fn cues_at(
    alloc: Global,
    table: &toml::Table,
    weights: usize,
    takes: usize,
) -> Result<Vec<Cue>, ProjectFault>
    requires { weights ≤ 12 }
    ensures { Gives (λ v. map cue_content v.items) result (cues_at weights takes (table_view table.now)) }
{
    let values = items_at(table, Key::Cue, Table::Splice, MAX_CUES)?;
    cues_of(alloc, values, weights, takes)
}

// The cues that the values state, one each.
#[tactic(auto, unfolding(crate::specs::ReadingSplice::cues_of))]
fn cues_of(
    alloc: Global,
    values: &[Value],
    weights: usize,
    takes: usize,
) -> Result<Vec<Cue>, ProjectFault>
    requires { weights ≤ 12 }
    ensures { Gives (λ v. map cue_content v.items) result (cues_of weights takes (list_of (items_view values.now))) }
{
    let mut cues = Vec::new(alloc);
    for (number, value) in values.iter().enumerate() {
        let cue = cue_of(alloc, value, number, weights, takes)?;
        cues.push(cue)?;
    }
    Ok(cues)
}

// The bridge of the last cue.
fn last_bridge(cues: &[Cue]) -> usize
    ensures { result ≡ last_bridge (map cue_content cues.now) }
{
    match cues.last() {
        Some(cue) => cue.bridge,
        None => 0,
    }
}

/// The sum of the absolute values of weights or taps.
pub fn abs_sum(numbers: &[i32]) -> u64
    requires { length numbers.now ≤ 65535 }
    ensures { result ≡ sum_by unsigned_abs numbers.now }
{
    numbers
        .iter()
        .map(|number| u64::from(number.unsigned_abs()))
        .sum()
}
