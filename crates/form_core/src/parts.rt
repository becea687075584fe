//! The bytes before and after the sound in a file of a form.

ghost use Rattle.std.specs.Prelude.{◌≡◌, ◌↔◌, ◌≤◌, ◌*◌, ◌/◌, ◌%◌, Err, IfOk};
ghost use Rattle.dsd_bits.specs.Contents.{described};
ghost use Rattle.dsd_bits.specs.Limits.{most_bits};
ghost use Rattle.dsdiff_core.specs.Writing as dsdiff;
ghost use Rattle.dsf_core.specs.Writing as dsf;
ghost use Rattle.form_core.specs.Parts.{FitsIn, head_in, tail_in};

use crate::form::Form;
use crate::shape::has_shape;
use dsd_bits::{BitOrder, Recording};
use dsdiff_core::WriteFault;
use std::alloc::{AllocError, Global};

/// The bytes before and after the sound in a file.
#[derive(Drop)]
pub struct Ends {
    /// The bytes before the sound.
    pub head: Vec<u8>,
    /// The bytes after it.
    pub tail: Vec<u8>,
}

/// The bytes before and after the sound in the file of the form that holds the recording with `count` bits, at most
/// `2^36`, in each channel. Only the number of channels is used, not their bits, so this works for a recording whose
/// sound is not read yet. What [`crate::write_in`] returns is the head, the sound bytes by [`interleaving_in`], and the
/// tail.
///
/// Refusals, in this order: `NotWholeBytes` if the form is DSDIFF and `count` isn't a multiple of 8, for which no
/// memory is needed; `Memory`.
pub fn ends_in(
    alloc: Global,
    recording: &Recording,
    form: Form,
    count: usize,
) -> Result<Ends, WriteFault>
    requires in_limit { count ≤ most_bits }
    ensures head { IfOk result (λ ends. ends.head.items ≡ head_in form recording.now count) }
    ensures tail { IfOk result (λ ends. ends.tail.items ≡ tail_in form recording.now count) }
    ensures fits { IfOk result (λ ends. FitsIn form count) }
    ensures not_whole_bytes { (result ≡ Err WriteFault.NotWholeBytes) ↔ (FitsIn form count → ⊥) }
{
    match form {
        Form::Dsdiff => around_frames(alloc, recording, count),
        Form::Dsf => Ok(around_blocks(alloc, recording, BitOrder::LeastFirst, count)?),
        Form::Dsf8 => Ok(around_blocks(alloc, recording, BitOrder::MostFirst, count)?),
    }
}

// The bytes before and after the sound in a DSDIFF file.
fn around_frames(alloc: Global, recording: &Recording, count: usize) -> Result<Ends, WriteFault>
    requires in_limit { count ≤ most_bits }
    ensures head { IfOk result (λ ends. ends.head.items ≡ head_in Form.Dsdiff recording.now count) }
    ensures tail { IfOk result (λ ends. ends.tail.items ≡ tail_in Form.Dsdiff recording.now count) }
    ensures fits { IfOk result (λ ends. count % 8 ≡ 0) }
    ensures not_whole_bytes { (result ≡ Err WriteFault.NotWholeBytes) ↔ (count % 8 ≡ 0 → ⊥) }
{
    if count % 8 != 0 {
        return Err(WriteFault::NotWholeBytes);
    }
    has_shape(recording);
    let size = count / 8 * recording.channels().len();
    let tail = dsdiff_core::write_tail(alloc, recording, size)?;
    let head = dsdiff_core::write_head(alloc, recording, size, tail.len())?;
    Ok(Ends { head, tail })
}

// The bytes before and after the sound in a DSF file.
fn around_blocks(
    alloc: Global,
    recording: &Recording,
    order: BitOrder,
    count: usize,
) -> Result<Ends, AllocError>
    requires in_limit { count ≤ most_bits }
    ensures head { IfOk result (λ ends. ends.head.items
        ≡ dsf.head_text (record (described recording.now) { count = count }) order) }
    ensures tail { IfOk result (λ ends. ends.tail.items ≡ recording.now.tag) }
{
    let head = dsf_core::head_counted(alloc, recording.description(), count, order)?;
    let tail = Vec::from_slice(alloc, recording.tag())?;
    Ok(Ends { head, tail })
}
