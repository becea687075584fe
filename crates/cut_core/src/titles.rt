//! The marks of a master's titles.

ghost use Rattle.std.specs.Prelude.{◌≡◌, ◌≤◌, ◌^◌, ◌++◌, IfOk, OnOk, map};
ghost use Rattle.dsd_bits.specs.Contents.{mark_content};
ghost use Rattle.splice_core.specs.Cues.{cue_content};
ghost use Rattle.splice_core.specs.Splices.{splice_content};
ghost use Rattle.cut_core.specs.Cuts.{master_length};
ghost use Rattle.cut_core.specs.Titles.{AddsTitle, titles};

use crate::cues::{cue_at, cue_number, span_at};
use dsd_bits::Mark;
use dsdiff_core::mark_at;
use splice_core::{Cue, Splice};
use std::alloc::{AllocError, Global};

/// The marks of all titles.
pub(crate) fn title_marks(
    alloc: Global,
    splice: &Splice,
    rate: u32,
) -> Result<Vec<Mark>, AllocError>
    requires rate { (1000000 ≤ rate) × (rate ≤ 50000000) }
    requires in_limit { master_length (splice_content splice.now).cues ≤ 2 ^ 36 }
    ensures { IfOk result (λ marks. map mark_content marks.items ≡ titles rate (splice_content splice.now).cues) }
{
    let mut marks = Vec::new(alloc);
    let mut place = 0;
    for i in 0..cue_number(splice) {
        push_title(alloc, &mut marks, rate, place, cue_at(splice, i))?;
        place += span_at(splice, i);
    }
    Ok(marks)
}

// Appends the mark of a cue's title, if it has one, at a place.
fn push_title(
    alloc: Global,
    out: &mut Vec<Mark>,
    rate: u32,
    place: usize,
    cue: &Cue,
) -> Result<(), AllocError>
    requires rate { (1000000 ≤ rate) × (rate ≤ 50000000) }
    requires place { place ≤ 2 ^ 36 }
    ensures { OnOk result (AddsTitle rate place (cue_content cue.now) out.old.items out.new.items) }
{
    if let Some(title) = &cue.title {
        out.push(mark_at(alloc, place, rate, title.as_bytes())?)?;
    }
    Ok(())
}
