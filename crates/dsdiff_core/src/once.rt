//! Chunks of kinds that may be there once.

ghost use Rattle.std.specs.Prelude.{◌≡◌, ◌&&◌, [], All, find, is_some};
ghost use Rattle.dsdiff_core.specs.Held.{MayBeInMemory, held};
ghost use Rattle.dsdiff_core.specs.Spans.{is_second, once_each, property_kinds, span_has, top_kinds};
ghost use Rattle.dsdiff_core.specs.Steps.{Gives};

use crate::fault::DsdiffFault;
use crate::held::Held;
use crate::spans::{first_sound_property, first_with, is_sound_property};
use chunk_core::Span;

/// Refuses a second version, sound property or sound among the form's chunks.
pub(crate) fn refuse_second_in_form(file: Held, top: &[Span]) -> Result<(), DsdiffFault>
    requires { All (MayBeInMemory file) top.now }
    ensures { Gives (λ _. tt) result (once_each (top_kinds (held file.entry)) [] top.now) }
{
    for i in 0..top.len() {
        if is_second_in_form(file, &top[..i], top[i]) {
            return Err(DsdiffFault::Twice(top[i].id));
        }
    }
    Ok(())
}

fn is_second_in_form(file: Held, before: &[Span], span: Span) -> bool
    requires before { All (MayBeInMemory file) before.now }
    requires span { MayBeInMemory file span }
    ensures { result ≡ is_second (top_kinds (held file.entry)) before.now span }
{
    repeats(before, span, *b"FVER")
        || is_sound_property(file, span) && first_sound_property(file, before).is_some()
        || repeats(before, span, *b"DSD ")
}

/// Refuses a second rate, channels or compression among the sound property's chunks.
pub(crate) fn refuse_second_in_property(parts: &[Span]) -> Result<(), DsdiffFault>
    ensures { Gives (λ _. tt) result (once_each property_kinds [] parts.now) }
{
    for i in 0..parts.len() {
        if is_second_in_property(&parts[..i], parts[i]) {
            return Err(DsdiffFault::Twice(parts[i].id));
        }
    }
    Ok(())
}

fn is_second_in_property(before: &[Span], span: Span) -> bool
    ensures { result ≡ is_second property_kinds before.now span }
{
    repeats(before, span, *b"FS  ")
        || repeats(before, span, *b"CHNL")
        || repeats(before, span, *b"CMPR")
}

// The chunk has this ID, and so has one before it.
fn repeats(before: &[Span], span: Span, id: [u8; 4]) -> bool
    ensures { result ≡ (span_has id span && is_some (find (span_has id) before.now)) }
{
    span.id == id && first_with(before, id).is_some()
}
