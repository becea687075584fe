//! Chunks that are kept as their bytes.

ghost use Rattle.std.specs.Prelude.{◌≡◌, ◌++◌, All, IfOk, OnOk};
ghost use Rattle.dsdiff_core.specs.Others.{contents, has_part_in, kept_at};
ghost use Rattle.dsdiff_core.specs.Reading.{kept_others};
ghost use Rattle.dsdiff_core.specs.Held.{MayBeInMemory, IsInMemoryFor, IsInMemory, held};

use crate::held::{Held, data_of};
use crate::spans::is_sound_property;
use chunk_core::Span;
use dsd_bits::{Other, Place};
use std::alloc::{AllocError, Global};

/// The chunks of the sound property, of the edited masters and of the form that are kept, in this order.
pub(crate) fn kept_chunks(
    alloc: Global,
    file: Held,
    parts: &[Span],
    inner: &[Span],
    top: &[Span],
) -> Result<Vec<Other>, AllocError>
    requires parts { All (IsInMemory file) parts.now }
    requires inner { All (IsInMemory file) inner.now }
    requires top { All (MayBeInMemory file) top.now }
    ensures { IfOk result (λ v. contents v ≡ kept_others (held file.entry) parts.now inner.now top.now) }
{
    let mut others = Vec::new(alloc);
    push_kept(alloc, &mut others, Place::Property, file, parts)?;
    push_kept(alloc, &mut others, Place::Master, file, inner)?;
    push_kept(alloc, &mut others, Place::Form, file, top)?;
    Ok(others)
}

// Appends the chunks of a place that are kept.
fn push_kept(
    alloc: Global,
    others: &mut Vec<Other>,
    place: Place,
    file: Held,
    spans: &[Span],
) -> Result<(), AllocError>
    requires { All (IsInMemoryFor place file) spans.now }
    ensures { OnOk result (contents others.new ≡ contents others.old ++ kept_at (held file.entry) place spans.now) }
{
    for span in spans {
        if !is_read(place, file, *span) {
            let bytes = Vec::from_slice(alloc, data_of(file, *span))?;
            let id = span.id;
            others.push(Other { place, id, bytes })?;
        }
    }
    Ok(())
}

// Whether a recording has a part of its own for a chunk of this place.
fn is_read(place: Place, file: Held, span: Span) -> bool
    requires { IsInMemoryFor place file span }
    ensures { result ≡ has_part_in (held file.entry) place span }
{
    match place {
        Place::Property => span.id == *b"FS  " || span.id == *b"CHNL" || span.id == *b"CMPR",
        Place::Master => span.id == *b"MARK",
        Place::Form => {
            span.id == *b"FVER"
                || span.id == *b"DSD "
                || span.id == *b"DIIN"
                || is_sound_property(file, span)
        }
    }
}
