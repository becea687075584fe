//! The bits of a file of DoP samples, written as a file of a form.

ghost use Rattle.std.specs.Prelude.{◌≡◌, ◌+◌, ◌*◌, ◌%◌, ◌^◌, ◌++◌, ◌≤◌, [], IfOk, None, OnErr, OnOk, length};
ghost use Rattle.std.specs.Int.{div_ceil};
ghost use Rattle.std.specs.Io.KnownBytes.{IsAtEnd};
ghost use Rattle.chunk_core.specs.Inlets.{PullsBytes, inlet_reader};
ghost use Rattle.dsdiff_core.specs.ReadAgain.{FitsFields};
ghost use Rattle.dop_core.specs.Converting.{ConvertsOutline, PutsSamples, StartsOutline, StartsSamples};
ghost use Rattle.dop_core.specs.Outlines.{IsOutline, silent_in};
ghost use Rattle.dop_core.specs.Reading as Reading;
ghost use Rattle.form_core.specs.Parts.{FitsIn, head_in, tail_in};
ghost use Rattle.interleave_core.specs.Reinterleaving.{laced_in};

use crate::channels::dop_channels;
use crate::markers::broken_from;
use crate::outline::DopOutline;
use crate::packing::pack;
use crate::pieces::{put_piece, read_piece};
use crate::reading::describe;
use crate::stop::DopStop;
use chunk_core::{Inlet, Outlet};
use dsd_bits::{Interleaving, Recording, push_blocks};
use form_core::{
    Ends, Form, ends_in, fields_fit, interleaving_in, written_in_parts, written_is_read,
};
use interleave_core::{Segment, push_reinterleaved, segment_bits};
use std::alloc::{AllocError, Global};
use std::io::{Read, Write};

/// Reads a file of this outline again, and writes the file of the form that holds its recording. Of the samples it
/// holds a piece at a time, and what is made of it.
///
/// Refusals: `Changed` if the file isn't the outline with some samples; `ReadFailed`, `WriteFailed`, `Memory`. If the
/// file is one of the outline, what was written then is a prefix of what is due.
pub fn convert_dop<R: Read, W: Write>(
    alloc: Global,
    outline: &DopOutline,
    form: Form,
    inlet: &mut Inlet<R>,
    outlet: &mut Outlet<W>,
) -> Result<(), DopStop>
    requires outline { IsOutline outline.now }
    requires fits { FitsIn form outline.now.count }
    // The file was read to its end, and its recording's file was written.
    ensures ok { OnOk result (ConvertsOutline R.remaining inlet.old inlet.new form W.contents outlet.old outlet.new) }
    // After a refusal a prefix was written, if the reader's file is one of the outline.
    ensures prefix { OnErr result (StartsOutline R.remaining inlet.old outline.now form W.contents outlet.old outlet.new) }
{
    written_in_parts();
    written_is_read();
    let ends = ends_of(alloc, outline, form)?;
    let mut piece = Vec::new(alloc);
    read_same(inlet, &mut piece, &outline.front)?;
    put_piece(outlet, &ends.head)?;
    put_samples(alloc, outline, form, inlet, outlet)?;
    read_same(inlet, &mut piece, &outline.back)?;
    read_end(inlet, &mut piece)?;
    put_piece(outlet, &ends.tail)?;
    Ok(())
}

// The bytes around the bits in a file of a form.
fn ends_of(alloc: Global, outline: &DopOutline, form: Form) -> Result<Ends, DopStop>
    requires outline { IsOutline outline.now }
    requires fits { FitsIn form outline.now.count }
    ensures head { IfOk result (λ ends. ends.head.items ≡ head_in form (silent_in outline.now) outline.now.count) }
    ensures tail { IfOk result (λ ends. ends.tail.items ≡ tail_in form (silent_in outline.now) outline.now.count) }
    ensures fields { IfOk result (λ ends. FitsFields (silent_in outline.now)) }
    ensures few { IfOk result (λ ends. length ends.head.items + length ends.tail.items ≤ 2 ^ 62) }
{
    let description = describe(alloc, &outline.head, outline.count)?;
    let silent = Recording::silent(alloc, description)?;
    fields_fit(&silent);
    let Ok(ends) = ends_in(alloc, &silent, form, outline.count) else {
        return Err(DopStop::Memory);
    };
    if ends.head.len() + ends.tail.len() > 1 << 62 {
        return Err(DopStop::Memory);
    }
    Ok(ends)
}

// Reads as many bytes as there are here, which should be the same.
fn read_same<R: Read>(
    inlet: &mut Inlet<R>,
    piece: &mut Vec<u8>,
    bytes: &[u8],
) -> Result<(), DopStop>
    ensures ok { OnOk result (PullsBytes R.remaining inlet.old inlet.new bytes.now) }
{
    if !read_piece(inlet, piece, bytes.len())? || piece.as_slice() != bytes {
        return Err(DopStop::Changed);
    }
    Ok(())
}

// Reads once more, and sees that the file is at its end.
fn read_end<R: Read>(inlet: &mut Inlet<R>, piece: &mut Vec<u8>) -> Result<(), DopStop>
    ensures ok { OnOk result (PullsBytes R.remaining inlet.old inlet.new []) }
    ensures at_end { OnOk result (IsAtEnd (R.remaining (inlet_reader inlet.new))) }
{
    read_piece(inlet, piece, 1)?;
    if !piece.is_empty() {
        return Err(DopStop::Changed);
    }
    Ok(())
}

// Reads the samples, and writes their bits.
fn put_samples<R: Read, W: Write>(
    alloc: Global,
    outline: &DopOutline,
    form: Form,
    inlet: &mut Inlet<R>,
    outlet: &mut Outlet<W>,
) -> Result<(), DopStop>
    requires outline { IsOutline outline.now }
    requires fits { FitsIn form outline.now.count }
    ensures ok { OnOk result (PutsSamples R.remaining inlet.old inlet.new outline.now form W.contents outlet.old outlet.new) }
    ensures prefix { OnErr result (StartsSamples R.remaining inlet.old outline.now form W.contents outlet.old outlet.new) }
{
    let channels = outline.head.channels;
    let most = segment_bits(channels) / 16;
    let (mut piece, mut packed, mut out) = (Vec::new(alloc), Vec::new(alloc), Vec::new(alloc));
    let mut done = 0;
    while done < outline.head.frames {
        let frames = (outline.head.frames - done).min(most);
        read_marked(inlet, &mut piece, channels, outline.first + done, frames)?;
        let count = (outline.count - 16 * done).min(16 * frames);
        out.clear();
        let stretch = Segment { channels, count };
        push_piece(
            alloc,
            &mut out,
            &mut packed,
            &piece,
            stretch,
            interleaving_in(form),
        )?;
        put_piece(outlet, &out)?;
        done += frames;
    }
    Ok(())
}

// Reads so many frames, whose markers should follow those of the frames before.
fn read_marked<R: Read>(
    inlet: &mut Inlet<R>,
    piece: &mut Vec<u8>,
    channels: usize,
    first: usize,
    frames: usize,
) -> Result<(), DopStop>
    requires some { 1 ≤ channels }
    requires six { channels ≤ 6 }
    requires few { frames ≤ 2 ^ 32 }
    requires first { first ≤ 2 ^ 40 }
    ensures read { OnOk result (PullsBytes R.remaining inlet.old inlet.new piece.new.items) }
    ensures long { OnOk result (length piece.new.items ≡ 3 * (frames * channels)) }
    ensures marked { OnOk result (Reading.broken_from channels first piece.new.items 0 (frames * channels) ≡ None) }
{
    if !read_piece(inlet, piece, 3 * (frames * channels))? {
        return Err(DopStop::Changed);
    }
    match broken_from(piece, channels, first, frames) {
        Some(_) => Err(DopStop::Changed),
        None => Ok(()),
    }
}

// Appends the bits of a piece of frames, interleaved as `to`.
fn push_piece(
    alloc: Global,
    out: &mut Vec<u8>,
    packed: &mut Vec<u8>,
    piece: &[u8],
    stretch: Segment,
    to: Interleaving,
) -> Result<(), AllocError>
    requires size { 3 * (div_ceil stretch.count 16 * stretch.channels) ≤ length piece.now }
    requires whole { to ≡ Interleaving.Bytes → stretch.count % 8 ≡ 0 }
    ensures { OnOk result (out.new.items
        ≡ out.old.items ++ laced_in to (Reading.dop_channels stretch.channels piece.now stretch.count)) }
{
    match to {
        Interleaving::Blocks(order) if stretch.count % 8 > 0 => {
            let frames = stretch.count.div_ceil(16);
            let bits = dop_channels(alloc, piece, stretch.channels, frames, stretch.count)?;
            push_blocks(out, &bits, order)
        }
        to => {
            pack(packed, piece, stretch.channels, stretch.count)?;
            push_reinterleaved(alloc, out, packed, stretch, Interleaving::Bytes, to)
        }
    }
}
