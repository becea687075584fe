//! The form, which is the whole file, and its chunks.

ghost use Rattle.std.specs.Prelude.{◌≡◌, ◌≤◌, All, IfOk, length, map};
ghost use Rattle.chunk_core.specs.Places.{span_chunk};
ghost use Rattle.dsdiff_core.specs.Fields.{form_end};
ghost use Rattle.dsdiff_core.specs.Forms.{form_end_in, top_of, known_version};
ghost use Rattle.dsdiff_core.specs.Headers.{leading_of};
ghost use Rattle.dsdiff_core.specs.Held.{IsHeld, MayBeInMemory, held};
ghost use Rattle.dsdiff_core.specs.Steps.{Gives};

use crate::fault::DsdiffFault;
use crate::held::{Held, data_of, len, walk_form};
use crate::once::refuse_second_in_form;
use chunk_core::{Order, Span, head, id_at, walk};
use std::alloc::Global;

/// The chunks of the form: the first is a version 1, and there is no second version, sound property or sound.
#[tactic(auto, unfolding(crate::specs::Forms::top_of))]
pub(crate) fn form_chunks(alloc: Global, file: Held) -> Result<Vec<Span>, DsdiffFault>
    requires { IsHeld file }
    ensures exact { Gives (λ v. v.items) result (top_of (held file.entry)) }
    ensures inside { IfOk result (λ v. All (MayBeInMemory file.entry) v.items) }
{
    let end = form_end(file)?;
    let top = walk_form(alloc, file, end)?;
    require_version(file, &top)?;
    refuse_second_in_form(file, &top)?;
    Ok(top)
}

/// The chunks of the form before its sound, whose header is at a given place: the first is a version 1, and there is no
/// second version or sound property.
#[tactic(auto, unfolding(crate::specs::Headers::leading_of))]
pub(crate) fn leading_chunks(
    alloc: Global,
    prefix: Held,
    at: usize,
) -> Result<Vec<Span>, DsdiffFault>
    requires { (16 ≤ at) × (at ≤ length prefix.prefix.now) }
    ensures exact { Gives (λ v. v.items) result (leading_of (held prefix.entry) at) }
    ensures inside { IfOk result (λ v. All (MayBeInMemory prefix.entry) v.items) }
{
    let top = walk(alloc, prefix.prefix, 16, at)?;
    require_version(prefix, &top)?;
    refuse_second_in_form(prefix, &top)?;
    Ok(top)
}

// Where the form ends. Its size counts from byte 12, and one byte may be missing: a last pad.
#[tactic(auto, unfolding(crate::specs::Forms::form_end_in))]
fn form_end(file: Held) -> Result<usize, DsdiffFault>
    requires { IsHeld file }
    ensures exact { Gives (λ n. n) result (form_end_in (held file.entry)) }
    ensures from { IfOk result (λ n. 16 ≤ n) }
    ensures value { IfOk result (λ n. n ≡ form_end (held file.entry)) }
{
    let size = len(file);
    if size < 16 {
        return Err(DsdiffFault::NotDsdiff);
    }
    let Some(form) = head(Order::Big, file.prefix, 0) else {
        return Err(DsdiffFault::NotDsdiff);
    };
    if form.id != *b"FRM8" || id_at(file.prefix, 12) != *b"DSD " {
        return Err(DsdiffFault::NotDsdiff);
    }
    if form.size < 4 {
        return Err(DsdiffFault::FormCut {
            size: form.size,
            missing: 0,
        });
    }
    if ((size - 11) as u64) < form.size {
        return Err(DsdiffFault::FormCut {
            size: form.size,
            missing: form.size - (size - 12) as u64,
        });
    }
    Ok((form.size as usize).min(size - 12) + 12)
}

/// Refuses a first chunk that is not a version 1.
pub(crate) fn require_version(file: Held, top: &[Span]) -> Result<(), DsdiffFault>
    requires { All (MayBeInMemory file) top.now }
    ensures { Gives (λ _. tt) result (known_version (map (span_chunk (held file.entry)) top.now)) }
{
    let [first, ..] = top else {
        return Err(DsdiffFault::NoVersion(None));
    };
    if first.id != *b"FVER" || first.size < 4 {
        return Err(DsdiffFault::NoVersion(Some(first.id)));
    }
    let version = data_of(file, *first);
    if version[0] != 1 {
        return Err(DsdiffFault::BadVersion(id_at(version, 0)));
    }
    Ok(())
}
