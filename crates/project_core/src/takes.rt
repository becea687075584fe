//! The takes of a text: their names, and the number of one of them.

ghost use Rattle.std.specs.Prelude.{map, string_bytes};
ghost use Rattle.toml.specs.View.{table_view};
ghost use Rattle.project_core.specs.Steps.{Gives};
ghost use Rattle.project_core.specs.ReadingTakes.{take_number_at, takes_at};

use crate::fault::ProjectFault;
use crate::key::{Key, Table};
use crate::table::{below, integer_of, texts_at, value_at};
use std::alloc::Global;

/// The most takes.
pub const MAX_TAKES: usize = 16;

/// The names of the takes at `takes`: 1 to 16. Refusals, in this order: `MissingKey`, `WrongKind`, `OutOfLimit`.
#[tactic(auto, unfolding(crate::specs::ReadingTakes::takes_at))]
pub fn takes_at(
    alloc: Global,
    table: &toml::Table,
    place: Table,
) -> Result<Vec<String>, ProjectFault>
    ensures { Gives (λ v. map string_bytes v.items) result (takes_at place (table_view table.now)) }
{
    let takes = texts_at(alloc, table, Key::Takes, place)?;
    if takes.is_empty() || takes.len() > MAX_TAKES {
        return Err(ProjectFault::OutOfLimit(Key::Takes, place));
    }
    Ok(takes)
}

/// The number at `take`, below the number of takes, in the table of the cue or clip of this number. Refusals, in this
/// order: `MissingKey`, `WrongKind`, `NoTake`.
#[tactic(auto, unfolding(crate::specs::ReadingTakes::take_number_at))]
pub fn take_number_at(
    table: &toml::Table,
    place: Table,
    number: usize,
    takes: usize,
) -> Result<usize, ProjectFault>
    ensures { Gives (λ n. n) result (take_number_at place number takes (table_view table.now)) }
{
    let take = integer_of(value_at(table, Key::Take, place)?, Key::Take, place)?;
    below(take, takes).ok_or(ProjectFault::NoTake {
        number,
        take,
        takes,
    })
}
