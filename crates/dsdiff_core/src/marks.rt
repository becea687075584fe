//! The marks of the edited masters.

ghost use Rattle.std.specs.Prelude.{◌≡◌, ◌≤◌, ◌<◌, ◌+◌, ◌^◌, All, IfOk, length, map, true};
ghost use Rattle.chunk_core.specs.Places.{span_chunk};
ghost use Rattle.dsd_bits.specs.Contents.{mark_content};
ghost use Rattle.dsdiff_core.specs.Marks.{mark_of_bytes, text_size};
ghost use Rattle.dsdiff_core.specs.Masters.{has_no_cut_mark};
ghost use Rattle.dsdiff_core.specs.Reading.{marks_of};
ghost use Rattle.dsdiff_core.specs.Held.{IsInMemory, held};

use crate::held::{Held, data_of};
use chunk_core::Order::Big;
use chunk_core::{Span, u16_at, u32_at};
use dsd_bits::Mark;
use std::alloc::{AllocError, Global};

/// How many bytes the fields of a mark have, before its text.
pub(crate) const MARK_FIELDS: usize = 22;

/// The marks among the chunks of the edited masters.
pub(crate) fn read_marks(alloc: Global, file: Held, inner: &[Span]) -> Result<Vec<Mark>, AllocError>
    requires inside { All (IsInMemory file) inner.now }
    requires whole { has_no_cut_mark (map (span_chunk (held file)) inner.now) ≡ true }
    ensures marks { IfOk result (λ v. map mark_content v.items ≡ marks_of (held file.entry) inner.now) }
    ensures short { IfOk result (λ v. All (λ mark. length mark.text.items < 2 ^ 32) v.items) }
{
    let mut marks = Vec::new(alloc);
    for span in inner {
        if span.id == *b"MARK" {
            marks.push(read_mark(alloc, data_of(file, *span))?)?;
        }
    }
    Ok(marks)
}

// The mark in a chunk's data: 22 bytes of fields, the last of which is the size of the text after them.
fn read_mark(alloc: Global, bytes: &[u8]) -> Result<Mark, AllocError>
    requires fields { 22 ≤ length bytes.now }
    requires text { 22 + text_size bytes.now ≤ length bytes.now }
    ensures mark { IfOk result (λ mark. mark_content mark ≡ mark_of_bytes bytes.now) }
    ensures short { IfOk result (λ mark. length mark.text.items < 2 ^ 32) }
{
    let size = text_size(bytes) as usize;
    let (_, after) = bytes.split_at(MARK_FIELDS);
    let (text, _) = after.split_at(size);
    let text = Vec::from_slice(alloc, text)?;
    Ok(Mark {
        hours: u16_at(Big, bytes, 0),
        minutes: bytes[2],
        seconds: bytes[3],
        samples: u32_at(Big, bytes, 4),
        offset: u32_at(Big, bytes, 8).cast_signed(),
        kind: u16_at(Big, bytes, 12),
        channel: u16_at(Big, bytes, 14),
        flags: u16_at(Big, bytes, 16),
        text,
    })
}

/// How many bytes of text the fields of a mark state.
pub(crate) fn text_size(bytes: &[u8]) -> u32
    requires { 22 ≤ length bytes.now }
    ensures { result ≡ text_size bytes.now }
{
    u32_at(Big, bytes, 18)
}
