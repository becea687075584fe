//! Reads a whole project text.

ghost use Rattle.std.specs.Prelude.{IfOk, Ok, option_map};
ghost use Rattle.toml.specs.View.{table_view};
ghost use Rattle.splice_core.specs.Splices.{splice_content};
ghost use Rattle.project_core.specs.Projects.{ProjectContent, project_content};
ghost use Rattle.project_core.specs.Steps.{Gives};
ghost use Rattle.project_core.specs.Meaning.{IsProject};
ghost use Rattle.project_core.specs.ReadingProject.{decimate_in, project_at, project_of, splice_in};

use crate::decimate_table::decimate_of;
use crate::fault::ProjectFault;
use crate::key::{Key, Table};
use crate::project::Project;
use crate::splice_table::splice_of;
use crate::table::{document, find, has_only};
use fir_core::Taps;
use splice_core::Splice;
use std::alloc::Global;

/// The keys of the document.
pub const DOCUMENT_KEYS: [Key; 2] = [Key::Decimate, Key::Splice];

/// The project that a text states.
///
/// Refusals, in this order; the first that applies is returned:
/// 1. `NotToml`: the bytes are no TOML document.
/// 2. `UnknownKey`: the document has a key other than `decimate` and `splice`.
/// 3. If `decimate` is there: `WrongKind(decimate)` if it's no table, `UnknownKey` inside it; then for `taps`,
///    `factor`, `delay`, `shift` and `width` in turn `MissingKey`, `WrongKind`, and `OutOfLimit` if an integer doesn't
///    fit 32 bits, with a sign for the taps and without for the others; then `OutOfLimit` for the first of them outside
///    the limits of a decimator.
/// 4. If `splice` is there: `WrongKind(splice)` if it's no table, `UnknownKey` inside it; then for
///    `weights`, `takes` and `cue` in turn `MissingKey`, `WrongKind`, `OutOfLimit`.
/// 5. Each cue in turn, counted from 0: `WrongKind(cue)` if it's no table, `UnknownKey` inside it; then for `take`,
///    `start`, `stop`, `bridge`, `target`, `line` and `title` in turn `MissingKey`, `WrongKind`, `OutOfLimit`, or
///    `NoTake` for a take's number that isn't below the number of takes; then `ShortCue`. If the target is a fade, any
///    `line` is `OutOfLimit(line)`.
/// 6. `LastBridge`: the last cue's bridge isn't 0.
///
/// An array with an element of another kind is `WrongKind`, an empty one is `OutOfLimit`. `Memory` may be returned
/// instead of any of these.
pub fn read(alloc: Global, bytes: &[u8]) -> Result<Project, ProjectFault>
    // What is read is what the text states.
    ensures found { IfOk result (λ p. IsProject bytes.now (project_content p)) }
    // What a text states is read, unless memory runs out.
    ensures only { (p : ProjectContent) → IsProject bytes.now p → Gives project_content result (Ok p) }
    // The fault is the first one.
    ensures exact { Gives project_content result (project_at bytes.now) }
{
    read_in_order(alloc, bytes)
}

// The same, with the order of refusals as its only clause.
#[tactic(auto, unfolding(crate::specs::ReadingProject::project_at))]
fn read_in_order(alloc: Global, bytes: &[u8]) -> Result<Project, ProjectFault>
    ensures { Gives project_content result (project_at bytes.now) }
{
    let table = document(alloc, bytes)?;
    project_of(alloc, &table)
}

// The project of a document.
#[tactic(auto, unfolding(crate::specs::ReadingProject::project_of))]
fn project_of(alloc: Global, table: &toml::Table) -> Result<Project, ProjectFault>
    ensures { Gives project_content result (project_of (table_view table.now)) }
{
    if !has_only(table, &DOCUMENT_KEYS) {
        return Err(ProjectFault::UnknownKey(Table::Document));
    }
    let decimate = decimate_in(alloc, table)?;
    let splice = splice_in(alloc, table)?;
    Ok(Project { decimate, splice })
}

// The decimator, if there is one.
#[tactic(auto, unfolding(crate::specs::ReadingProject::decimate_in))]
fn decimate_in(alloc: Global, table: &toml::Table) -> Result<Option<Taps>, ProjectFault>
    ensures { Gives (λ o. o) result (decimate_in (table_view table.now)) }
{
    let Some(value) = find(table, Key::Decimate) else {
        return Ok(None);
    };
    Ok(Some(decimate_of(alloc, value)?))
}

// The splice, if there is one.
#[tactic(auto, unfolding(crate::specs::ReadingProject::splice_in))]
fn splice_in(alloc: Global, table: &toml::Table) -> Result<Option<Splice>, ProjectFault>
    ensures { Gives (λ o. option_map splice_content o) result (splice_in (table_view table.now)) }
{
    let Some(value) = find(table, Key::Splice) else {
        return Ok(None);
    };
    Ok(Some(splice_of(alloc, value)?))
}
