//! A file whose sound isn't in memory.

ghost use Rattle.std.specs.Prelude.{◌≡◌, ◌≤◌, ◌+◌, ◌<◌, [], All, IfOk, length};
ghost use Rattle.chunk_core.specs.Places.{span_chunk};
ghost use Rattle.chunk_core.specs.Reading.{spans_in};
ghost use Rattle.chunk_core.specs.Steps.{Gives as Walks};
ghost use Rattle.dsdiff_core.specs.Fields.{form_end};
ghost use Rattle.dsdiff_core.specs.Steps.{Gives, walked};
ghost use Rattle.dsdiff_core.specs.Held.{IsAround, IsHeld, MayBeInMemory, IsInMemory, held};

use crate::fault::DsdiffFault;
use chunk_core::{ChunkFault, Span, walk, walk_at};
use std::alloc::Global;

/// A file without the bytes of its sound: what comes before them, how many they are, and what follows them. Places are
/// those of the whole file.
#[derive(Clone, Copy)]
pub(crate) struct Held<'a> {
    pub(crate) prefix: &'a [u8],
    pub(crate) hole: usize,
    pub(crate) back: &'a [u8],
}

/// A file that is in memory as a whole.
pub(crate) fn whole(file: &[u8]) -> Held
    ensures value { held result ≡ file.now }
    ensures is_held { IsHeld result }
    ensures prefix { result.prefix.now ≡ file.now }
{
    Held {
        prefix: file,
        hole: 0,
        back: &[],
    }
}

/// How many bytes the file has.
pub(crate) fn len(file: Held) -> usize
    requires { IsHeld file }
    ensures { result ≡ length (held file.entry) }
{
    file.prefix.len() + file.hole + file.back.len()
}

/// A chunk's data.
pub(crate) fn data_of(file: Held, span: Span) -> &[u8]
    requires { IsInMemory file span }
    ensures value { result.now ≡ (span_chunk (held file.entry) span).content }
    ensures len { length result.now ≡ span.size }
{
    let size = span.size;
    if span.start + size <= file.prefix.len() {
        &file.prefix[span.start..span.start + size]
    } else {
        let at = span.start - file.prefix.len() - file.hole;
        &file.back[at..at + size]
    }
}

/// The chunks in the data of a chunk, from a place on.
pub(crate) fn walk_inside(
    alloc: Global,
    file: Held,
    span: Span,
    start: usize,
) -> Result<Vec<Span>, ChunkFault>
    requires stands { IsInMemory file span }
    requires start { (span.start ≤ start) × (start ≤ span.start + span.size) }
    ensures exact { Walks (λ spans. spans.items) result (spans_in (held file.entry) start (span.start + span.size)) }
    ensures inside { IfOk result (λ spans. All (IsInMemory file.entry) spans.items) }
{
    let data = data_of(file, span);
    walk_at(alloc, &data[start - span.start..], start)
}

/// The chunks of the form, which ends at a given place.
pub(crate) fn walk_form(alloc: Global, file: Held, end: usize) -> Result<Vec<Span>, DsdiffFault>
    requires held { IsHeld file }
    requires from { 16 ≤ end }
    requires end { end ≡ form_end (held file) }
    ensures exact { Gives (λ spans. spans.items) result (walked (spans_in (held file.entry) 16 end)) }
    ensures inside { IfOk result (λ spans. All (MayBeInMemory file.entry) spans.items) }
{
    if file.hole == 0 && file.back.is_empty() {
        return Ok(walk(alloc, file.prefix, 16, end)?);
    }
    walk_around(alloc, file, end)
}

// The same around a sound that isn't in memory.
fn walk_around(alloc: Global, file: Held, end: usize) -> Result<Vec<Span>, DsdiffFault>
    requires around { IsAround file }
    requires end { end ≡ form_end (held file) }
    ensures exact { Gives (λ spans. spans.items) result (walked (spans_in (held file.entry) 16 end)) }
    ensures inside { IfOk result (λ spans. All (MayBeInMemory file.entry) spans.items) }
{
    let start = file.prefix.len();
    let sound = Span {
        id: *b"DSD ",
        start,
        size: file.hole,
    };
    let after = start + file.hole;
    let pad = (file.hole % 2).min(end - after);
    let mut top = walk(alloc, file.prefix, 16, start - 12)?;
    let mut later = walk_at(alloc, &file.back[pad..end - after], after + pad)?;
    top.push(sound)?;
    top.append(&mut later)?;
    Ok(top)
}
