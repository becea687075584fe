//! The chunks of the edited masters.

ghost use Rattle.std.specs.Prelude.{◌≡◌, All, IfOk, map, not, true};
ghost use Rattle.chunk_core.specs.Places.{span_chunk};
ghost use Rattle.dsdiff_core.specs.Masters.{has_no_cut_mark, is_no_cut_mark, chunks_of_master, masters_of};
ghost use Rattle.dsdiff_core.specs.Held.{MayBeInMemory, IsInMemory, held};
ghost use Rattle.dsdiff_core.specs.Steps.{Gives};

use crate::fault::DsdiffFault;
use crate::held::{Held, data_of, walk_inside};
use crate::marks::{MARK_FIELDS, text_size};
use chunk_core::Span;
use std::alloc::Global;

/// The chunks of each edited master among the form's chunks, one master after the other.
pub(crate) fn master_chunks(
    alloc: Global,
    file: Held,
    top: &[Span],
) -> Result<Vec<Span>, DsdiffFault>
    requires { All (MayBeInMemory file) top.now }
    ensures exact { Gives (λ v. v.items) result (masters_of (held file.entry) top.now) }
    ensures inside { IfOk result (λ v. All (IsInMemory file.entry) v.items) }
    ensures whole { IfOk result (λ v. has_no_cut_mark (map (span_chunk (held file.entry)) v.items) ≡ true) }
{
    let mut found = Vec::new(alloc);
    for span in top {
        if span.id == *b"DIIN" {
            let mut inner = read_master(alloc, file, *span)?;
            found.append(&mut inner)?;
        }
    }
    Ok(found)
}

#[tactic(auto, unfolding(crate::specs::Masters::chunks_of_master))]
fn read_master(alloc: Global, file: Held, span: Span) -> Result<Vec<Span>, DsdiffFault>
    requires { IsInMemory file span }
    ensures exact { Gives (λ v. v.items) result (chunks_of_master (held file.entry) span) }
    ensures inside { IfOk result (λ v. All (IsInMemory file.entry) v.items) }
    ensures whole { IfOk result (λ v. has_no_cut_mark (map (span_chunk (held file.entry)) v.items) ≡ true) }
{
    let inner = walk_inside(alloc, file, span, span.start)?;
    if !no_mark_is_cut(file, &inner) {
        return Err(DsdiffFault::BadMark);
    }
    Ok(inner)
}

fn no_mark_is_cut(file: Held, spans: &[Span]) -> bool
    requires { All (IsInMemory file) spans.now }
    ensures { result ≡ has_no_cut_mark (map (span_chunk (held file.entry)) spans.now) }
{
    for span in spans {
        if is_cut_mark(file, *span) {
            return false;
        }
    }
    true
}

// Whether the chunk is a mark with fewer bytes than its fields and their text.
fn is_cut_mark(file: Held, span: Span) -> bool
    requires { IsInMemory file span }
    ensures { result ≡ not (is_no_cut_mark (span_chunk (held file.entry) span)) }
{
    if span.id != *b"MARK" {
        return false;
    }
    let data = data_of(file, span);
    if data.len() < MARK_FIELDS {
        return true;
    }
    data.len() - MARK_FIELDS < text_size(data) as usize
}
