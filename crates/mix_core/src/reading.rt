//! Reads a whole mix text.

ghost use Rattle.std.specs.Prelude.{IfOk, Ok};
ghost use Rattle.toml.specs.View.{table_view};
ghost use Rattle.clip_core.specs.Contents.{mix_content};
ghost use Rattle.clip_core.specs.Mixes.{MixContent};
ghost use Rattle.project_core.specs.Steps.{Gives};
ghost use Rattle.mix_core.specs.Meaning.{IsMix};
ghost use Rattle.mix_core.specs.ReadingMix.{mix_at, mix_in};

use crate::mix_table::mix_of;
use clip_core::Mix;
use project_core::table::{document, has_only, value_at};
use project_core::{Key, ProjectFault, Table};
use std::alloc::Global;

/// The keys of the document.
pub const TEXT_KEYS: [Key; 1] = [Key::Mix];

/// The mix that a text states.
///
/// Refusals, in this order; the first that applies is returned:
/// 1. `NotToml`: the bytes are no TOML document.
/// 2. `UnknownKey`: the document has a key other than `mix`.
/// 3. `MissingKey(mix)`; `WrongKind(mix)` if it's no table, `UnknownKey` inside it; then for `unit`, `audible`, `limit`,
///    `every`, `takes`, `decoder` and `clip` in turn `MissingKey`, `WrongKind`, `OutOfLimit`. Of `decoder` and `clip`
///    these are asked: that each is an array, and how many items it has.
/// 4. Each decoder in turn, counted from 0: `WrongKind(decoder)` if it's no table, `UnknownKey` inside it; then for
///    `taps` `MissingKey`, `WrongKind`, `OutOfLimit`.
/// 5. Each clip in turn, counted from 0: `WrongKind(clip)` if it's no table, `UnknownKey` inside it; then for `take`,
///    `decoder`, `start`, `at`, `length`, `gain` and `gains` in turn `MissingKey`, `WrongKind`, `OutOfLimit`, or
///    `NoTake` for a take's number that isn't below the number of takes. A decoder's number that isn't below the number
///    of decoders is `OutOfLimit(decoder)`, and a clip that ends after `2^36` is `OutOfLimit(length)`. Beside `gain`,
///    any `gains` is `OutOfLimit(gains)`.
/// 6. `OutOfLimit(clip)`: more than 64 clips have one place.
///
/// An array with an element of another kind, at any depth, is `WrongKind`; an empty one is `OutOfLimit`, and so is a
/// point that hasn't two numbers. `Memory` may be returned instead of any of these.
pub fn read(alloc: Global, bytes: &[u8]) -> Result<Mix, ProjectFault>
    // What is read is what the text states.
    ensures found { IfOk result (λ x. IsMix bytes.now (mix_content x)) }
    // What a text states is read, unless memory runs out.
    ensures only { (x : MixContent) → IsMix bytes.now x → Gives mix_content result (Ok x) }
    // The fault is the first one.
    ensures exact { Gives mix_content result (mix_at bytes.now) }
{
    read_in_order(alloc, bytes)
}

// The same, with the order of refusals as its only clause.
#[tactic(auto, unfolding(crate::specs::ReadingMix::mix_at))]
fn read_in_order(alloc: Global, bytes: &[u8]) -> Result<Mix, ProjectFault>
    ensures { Gives mix_content result (mix_at bytes.now) }
{
    let table = document(alloc, bytes)?;
    mix_in(alloc, &table)
}

// The mix of a document.
#[tactic(auto, unfolding(crate::specs::ReadingMix::mix_in))]
fn mix_in(alloc: Global, table: &toml::Table) -> Result<Mix, ProjectFault>
    ensures { Gives mix_content result (mix_in (table_view table.now)) }
{
    if !has_only(table, &TEXT_KEYS) {
        return Err(ProjectFault::UnknownKey(Table::MixDocument));
    }
    mix_of(alloc, value_at(table, Key::Mix, Table::MixDocument)?)
}
