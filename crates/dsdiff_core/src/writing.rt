//! From a recording to the bytes of a file.

ghost use Rattle.std.specs.Prelude.{◌≡◌, ◌+◌, ◌<◌, ◌≤◌, ◌%◌, ◌^◌, ◌++◌, ◌↔◌, All, None, Some, IfOk, OnOk, flat_map, length, map};
ghost use Rattle.byteorder.specs.Endian.{big_bytes};
ghost use Rattle.chunk_core.specs.Chunks.{spell};
ghost use Rattle.dsd_bits.specs.Channels.{count_of};
ghost use Rattle.dsd_bits.specs.Contents.{mark_content};
ghost use Rattle.dsd_bits.specs.Ids.{SND};
ghost use Rattle.dsd_bits.specs.Shape.{HasShape, same_place};
ghost use Rattle.dsdiff_core.specs.Files.{IsDsdiff};
ghost use Rattle.dsdiff_core.specs.MarkBytes.{mark_bytes};
ghost use Rattle.dsdiff_core.specs.ReadAgain.{as_stored};
ghost use Rattle.dsdiff_core.specs.Writing.{channels_chunk, dsdiff_text, first_chunks, head_text, mark_chunk, master_chunks, master_text, others_text, property_chunks, tail_text};

use crate::fields::{fields_fit, keeps_shape};
use crate::write_fault::WriteFault;
use crate::writing_laws::written_is_read_again;
use chunk_core::{Order, push_chunk, push_u16, push_u32, push_u64};
use dsd_bits::{Mark, Other, Place, Recording, push_laced};
use std::alloc::{AllocError, Global};

/// The bytes of the DSDIFF 1.5 file that holds the recording. Numbers have the highest byte first. An odd chunk is
/// followed by one zero byte, which the size of the enclosing chunk counts.
///
/// The form has these chunks, in this order:
/// - `FVER`: version 1.5.
/// - `PROP` of the type `SND `: `FS  ` with the rate in hertz, `CHNL` with the channels' IDs, `CMPR` for no
///   compression, and the kept chunks of a property.
/// - `DSD `: the sound, one byte of each channel in turn, the most significant bit the earliest.
/// - `DIIN`: a `MARK` for each mark, then the kept chunks of an edited master. It is left out if it would be empty.
/// - The kept chunks of the form.
///
/// A file does not store the layout and the tag.
///
/// Refusals, in this order: `NotWholeBytes` if the number of each channel's bits isn't a multiple of 8, for which no
/// memory is needed; `Memory`.
pub fn write(alloc: Global, recording: &Recording) -> Result<Vec<u8>, WriteFault>
    ensures text { IfOk result (λ file. dsdiff_text recording.now ≡ Some file.items) }
    // What is read from it is the recording, without what a file does not store.
    ensures read_again { IfOk result (λ file. IsDsdiff file.items (as_stored recording.now)) }

    ensures not_whole_bytes { (result ≡ Err WriteFault.NotWholeBytes) ↔ (dsdiff_text recording.now ≡ None) }
{
    if recording.count() % 8 != 0 {
        return Err(WriteFault::NotWholeBytes);
    }
    Ok(file_of(alloc, recording)?)
}

// The file of a recording whose channels end with a whole byte.
fn file_of(alloc: Global, recording: &Recording) -> Result<Vec<u8>, AllocError>
    requires { count_of recording.now.channels % 8 ≡ 0 }
    ensures text { IfOk result (λ file. dsdiff_text recording.now ≡ Some file.items) }
    ensures read_again { IfOk result (λ file. IsDsdiff file.items (as_stored recording.now)) }
{
    let channels = recording.channels();
    let size = recording.count() / 8 * channels.len();
    let tail = write_tail(alloc, recording, size)?;
    let mut out = write_head(alloc, recording, size, tail.len())?;
    out.reserve_exact(size + tail.len())?;
    push_laced(&mut out, channels)?;
    out.extend_from_slice(&tail)?;
    fields_fit(recording);
    written_is_read_again();
    Ok(out)
}

/// The bytes before the sound in the file that [`write`] returns for a recording whose sound has `size` bytes, followed
/// by `place_after` bytes, those of [`write_tail`]. The recording's own channels are not used: an outline of it has the
/// same head.
pub fn write_head(
    alloc: Global,
    recording: &Recording,
    size: usize,
    after: usize,
) -> Result<Vec<u8>, AllocError>
    requires { after ≡ length (tail_text recording.now size) }
    ensures { IfOk result (λ head. head.items ≡ head_text recording.now size) }
{
    keeps_shape(recording);
    let first = first_chunks(alloc, recording)?;
    let mut out = Vec::new(alloc);
    out.extend_from_slice(b"FRM8")?;
    push_u64(&mut out, Order::Big, size_around(first.len(), size, after))?;
    out.extend_from_slice(b"DSD ")?;
    out.extend_from_slice(&first)?;
    out.extend_from_slice(b"DSD ")?;
    push_u64(&mut out, Order::Big, size as u64)?;
    Ok(out)
}

/// The bytes after the sound in the file that [`write`] returns for a recording whose sound has `size` bytes: its pad,
/// the edited master and the kept chunks of the form. The recording's own channels are not used: an outline of it has
/// the same tail.
pub fn write_tail(alloc: Global, recording: &Recording, size: usize) -> Result<Vec<u8>, AllocError>
    ensures { IfOk result (λ tail. tail.items ≡ tail_text recording.now size) }
{
    keeps_shape(recording);
    let mut out = Vec::new(alloc);
    out.resize(size % 2, 0)?;
    push_master(alloc, &mut out, recording)?;
    push_others(&mut out, recording.others(), Place::Form)?;
    Ok(out)
}

// The size of the form, from the bytes of the chunks before the sound, of the sound and after it. Its number has eight
// bytes, whatever the sum.
fn size_around(first: usize, size: usize, after: usize) -> u64
    ensures { big_bytes 8 result ≡ big_bytes 8 (4 + first + 12 + size + after) }
{
    (16 as u64)
        .wrapping_add(first as u64)
        .wrapping_add(size as u64)
        .wrapping_add(after as u64)
}

// The chunks before the sound.
fn first_chunks(alloc: Global, recording: &Recording) -> Result<Vec<u8>, AllocError>
    requires { HasShape recording.now }
    ensures { IfOk result (λ bytes. bytes.items ≡ flat_map spell (first_chunks recording.now)) }
{
    let property = property_data(alloc, recording)?;
    let mut out = Vec::new(alloc);
    push_chunk(&mut out, *b"FVER", &[1, 5, 0, 0])?;
    push_chunk(&mut out, *b"PROP", &property)?;
    Ok(out)
}

// The data of the sound's property.
fn property_data(alloc: Global, recording: &Recording) -> Result<Vec<u8>, AllocError>
    requires { HasShape recording.now }
    ensures { IfOk result (λ bytes. bytes.items ≡ SND ++ flat_map spell (property_chunks recording.now)) }
{
    let names = channels_data(alloc, recording.ids())?;
    let mut rate = Vec::new(alloc);
    push_u32(&mut rate, Order::Big, recording.rate())?;
    let mut out = Vec::new(alloc);
    out.extend_from_slice(b"SND ")?;
    push_chunk(&mut out, *b"FS  ", &rate)?;
    push_chunk(&mut out, *b"CHNL", &names)?;
    push_chunk(&mut out, *b"CMPR", b"DSD \x0enot compressed")?;
    push_others(&mut out, recording.others(), Place::Property)?;
    Ok(out)
}

// The data of the channels' chunk.
fn channels_data(alloc: Global, ids: &[[u8; 4]]) -> Result<Vec<u8>, AllocError>
    requires { length ids.now ≤ 6 }
    ensures { IfOk result (λ bytes. bytes.items ≡ (channels_chunk ids.now).content) }
{
    let mut out = Vec::new(alloc);
    push_u16(&mut out, Order::Big, ids.len() as u16)?;
    for id in ids {
        out.extend_from_slice(id)?;
    }
    Ok(out)
}

// Appends the edited master, which is left out if it would be empty.
fn push_master(alloc: Global, out: &mut Vec<u8>, recording: &Recording) -> Result<(), AllocError>
    requires { HasShape recording.now }
    ensures { OnOk result (out.new.items ≡ out.old.items ++ master_text recording.now) }
{
    let master = master_data(alloc, recording)?;
    if !master.is_empty() {
        push_chunk(out, *b"DIIN", &master)?;
    }
    Ok(())
}

// The data of the edited master.
fn master_data(alloc: Global, recording: &Recording) -> Result<Vec<u8>, AllocError>
    requires { HasShape recording.now }
    ensures { IfOk result (λ bytes. bytes.items ≡ flat_map spell (master_chunks recording.now)) }
{
    let mut out = marks_data(alloc, recording.marks())?;
    push_others(&mut out, recording.others(), Place::Master)?;
    Ok(out)
}

// The chunks of the marks.
fn marks_data(alloc: Global, marks: &[Mark]) -> Result<Vec<u8>, AllocError>
    requires { All (λ mark. length mark.text.items < 2 ^ 32) marks.now }
    ensures { IfOk result (λ bytes. bytes.items ≡ flat_map spell (map mark_chunk (map mark_content marks.now))) }
{
    let mut out = Vec::new(alloc);
    for mark in marks {
        let content = mark_data(alloc, mark)?;
        push_chunk(&mut out, *b"MARK", &content)?;
    }
    Ok(out)
}

// The data of a mark's chunk.
fn mark_data(alloc: Global, mark: &Mark) -> Result<Vec<u8>, AllocError>
    requires { length mark.now.text.items < 2 ^ 32 }
    ensures { IfOk result (λ bytes. bytes.items ≡ mark_bytes (mark_content mark.now)) }
{
    let mut out = Vec::new(alloc);
    push_u16(&mut out, Order::Big, mark.hours)?;
    let (minutes, seconds) = (mark.minutes, mark.seconds);
    out.extend_from_slice(&[minutes, seconds])?;
    push_u32(&mut out, Order::Big, mark.samples)?;
    push_u32(&mut out, Order::Big, mark.offset.cast_unsigned())?;
    push_u16(&mut out, Order::Big, mark.kind)?;
    push_u16(&mut out, Order::Big, mark.channel)?;
    push_u16(&mut out, Order::Big, mark.flags)?;
    push_u32(&mut out, Order::Big, mark.text.len() as u32)?;
    out.extend_from_slice(&mark.text)?;
    Ok(out)
}

// Appends the kept chunks of a place.
fn push_others(out: &mut Vec<u8>, others: &[Other], place: Place) -> Result<(), AllocError>
    ensures { OnOk result (out.new.items ≡ out.old.items ++ others_text place others.now) }
{
    for other in others {
        if holds_at(other, place) {
            push_chunk(out, other.id, &other.bytes)?;
        }
    }
    Ok(())
}

// Whether a kept chunk is of this place.
fn holds_at(other: &Other, place: Place) -> bool
    ensures { result ≡ same_place other.now.place place }
{
    match (other.place, place) {
        (Place::Property, Place::Property)
        | (Place::Master, Place::Master)
        | (Place::Form, Place::Form) => true,
        _ => false,
    }
}
