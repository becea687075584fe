//! From chunk to chunk through a range.

ghost use Rattle.std.specs.Prelude.{◌≡◌, ◌≤◌, ◌+◌, ◌<◌, ◌^◌, List, length, map, slice_range, All, IfOk, Ok};
ghost use Rattle.chunk_core.specs.Chunks.{Chunk, chunks};
ghost use Rattle.chunk_core.specs.Places.{LiesIn, places, span_chunk};
ghost use Rattle.chunk_core.specs.Reading.{chunk_of, first_of, spans_at, spans_in};
ghost use Rattle.chunk_core.specs.Steps.{Gives};

use crate::fault::ChunkFault;
use crate::heads::head;
use crate::layout::{Head, Span};
use crate::numbers::Order;
use std::alloc::Global;

/// The DSDIFF chunks (DSDIFF 1.5) that fill the bytes from `start` up to `stop`, in their order. Places are counted in
/// the whole slice. A pad may have any value, and the last one may be missing.
///
/// Refusals, at the first place without a whole chunk: `HeadCut` if fewer than 12 bytes are left for its header,
/// `DataCut` if its data extend past `stop`. Each has the place of the header, `DataCut` also the ID and the size there.
/// `Memory` may come in place of either.
pub fn walk(alloc: Global, bytes: &[u8], start: usize, stop: usize) -> Result<Vec<Span>, ChunkFault>
    requires { (start ≤ stop) × (stop ≤ length bytes.now) }
    // The range is made of the chunks that are found, and they are at these places.
    ensures found { IfOk result (λ spans.
        chunks (slice_range bytes.now start stop) (map (span_chunk bytes.now) spans.items)) }
    ensures places { IfOk result (λ spans. spans.items ≡ places start (map (span_chunk bytes.now) spans.items)) }

    // Whatever chunks the range is made of, they are found.
    ensures only { (cs : List Chunk) → chunks (slice_range bytes.now start stop) cs
        → Gives (λ spans. spans.items) result (Ok (places start cs)) }
    // The fault is the first one.
    ensures exact { Gives (λ spans. spans.items) result (spans_in bytes.now start stop) }

    ensures inside { IfOk result (λ spans. All (LiesIn start stop) spans.items) }
{
    walk_at(alloc, &bytes[start..stop], start)
}

/// The DSDIFF chunks that fill some bytes, with their places in a file that holds these bytes at `at`. They are what
/// [`walk`] finds there, and the faults are the same.
pub fn walk_at(alloc: Global, bytes: &[u8], at: usize) -> Result<Vec<Span>, ChunkFault>
    requires { at + length bytes.now < 2 ^ 64 }
    ensures exact { Gives (λ spans. spans.items) result (spans_at at bytes.now) }
    ensures inside { IfOk result (λ spans. All (LiesIn at (at + length bytes.now)) spans.items) }
{
    let mut spans = Vec::new(alloc);
    let mut done = 0;
    while done < bytes.len() {
        let span = span_at(&bytes[done..], at + done)?;
        done += 12 + span.size + span.size % 2;
        spans.push(span)?;
    }
    Ok(spans)
}

// The first chunk of bytes that lie at a given place.
#[tactic(auto, unfolding(crate::specs::Reading::first_of))]
fn span_at(here: &[u8], at: usize) -> Result<Span, ChunkFault>
    requires { at + length here.now < 2 ^ 64 }
    ensures exact { Gives (λ s. chunk_of s.id s.size here.now) result (first_of at here.now) }
    ensures start { IfOk result (λ span. span.start ≡ at + 12) }
    ensures inside { IfOk result (λ span. 12 + span.size ≤ length here.now) }
{
    let Some(found) = head(Order::Big, here, 0) else {
        return Err(ChunkFault::HeadCut(at));
    };
    let Head { id, size } = found;
    if ((here.len() - 12) as u64) < size {
        return Err(ChunkFault::DataCut {
            place: at,
            id,
            size,
        });
    }
    Ok(Span {
        id,
        start: at + 12,
        size: size as usize,
    })
}
