//! Chunks of a file by their places.

ghost use Rattle.std.specs.Prelude.{◌≡◌, ◌≤◌, All, IfSome, IsTrue, find, length, option_map};
ghost use Rattle.chunk_core.specs.Places.{span_chunk};
ghost use Rattle.dsdiff_core.specs.Held.{MayBeInMemory, IsInMemory, held};
ghost use Rattle.dsdiff_core.specs.Spans.{data_with, holds_property, span_has};

use crate::held::{Held, data_of};
use chunk_core::Span;

/// Whether the chunk is a property of the sound.
pub(crate) fn is_sound_property(file: Held, span: Span) -> bool
    requires { MayBeInMemory file span }
    ensures value { result ≡ holds_property (held file.entry) span }
    ensures long { IsTrue result → 4 ≤ span.size }
{
    span.id == *b"PROP" && data_of(file, span).starts_with(b"SND ")
}

/// The first chunk with this ID.
pub(crate) fn first_with(spans: &[Span], id: [u8; 4]) -> Option<Span>
    ensures { result ≡ find (span_has id) spans.now }
{
    for span in spans {
        if span.id == id {
            return Some(*span);
        }
    }
    None
}

/// The first property of the sound.
pub(crate) fn first_sound_property(file: Held, spans: &[Span]) -> Option<Span>
    requires { All (MayBeInMemory file) spans.now }
    ensures value { result ≡ find (holds_property (held file.entry)) spans.now }
    ensures inside { IfSome result (IsInMemory file.entry) }
    ensures long { IfSome result (λ s. 4 ≤ s.size) }
{
    for span in spans {
        if is_sound_property(file, *span) {
            return Some(*span);
        }
    }
    None
}

/// The data of the first chunk with this ID.
pub(crate) fn data_with<'a>(file: Held<'a>, spans: &[Span], id: [u8; 4]) -> Option<&'a [u8]>
    requires { All (IsInMemory file) spans.now }
    ensures { option_map (λ x. x.now) result ≡ data_with (held file.entry) id spans.now }
{
    match first_with(spans, id) {
        None => None,
        Some(span) => Some(data_of(file, span)),
    }
}
