//! Converts a recording from one form to another: in memory, or from a reader to a writer.

ghost use Rattle.std.specs.Prelude.{◌≡◌, ◌+◌, ◌-◌, ◌<◌, ◌≤◌, ◌^◌, Err, IfErr, IfOk, IsErrOf, OnErr};
ghost use Rattle.chunk_core.specs.Inlets.{inlet_failures, inlet_reads};
ghost use Rattle.chunk_core.specs.Outlets.{outlet_failures};
ghost use Rattle.sound_core.specs.Faults.{failed_reads, failed_writes};
ghost use Rattle.sound_core.specs.Outlines.{AreStated, around_of};
ghost use Rattle.form_core.specs.Parts.{FitsIn};
ghost use Rattle.form_core.specs.Steps.{GivesUnless};
ghost use Rattle.transfer_core.specs.Conversions.{ConversionApplies};
ghost use Rattle.transfer_core.specs.Converting.{IsConverted, IsKept, IsWhole, contents, converted_of};
ghost use Rattle.transfer_core.specs.Ends.{AreSpent, ConvertsAll, Rewrites, StartsFile, WritesNothing, left_in};
ghost use Rattle.request_core.specs.Faults.{as_stream};

use crate::laws::converted_is_kept;
use chunk_core::{Inlet, Outlet};
use form_core::{Form, dropped_in, ends_in, interleaving_in, read_any, write_in, written_in_parts};
use request_core::Fault;
use sound_core::{NewFile, Outline, StreamFault, relay};
use std::alloc::Global;
use std::io::{Read, Write};

/// A recording's file in another form.
#[derive(Drop)]
pub struct Converted {
    /// The bytes of the file.
    pub bytes: Vec<u8>,
    /// How many parts of the recording have no place in the form: marks and kept chunks in a DSF file, a tag in a
    /// DSDIFF file.
    pub dropped: u64,
}

/// The recording of a DSDIFF or DSF file as a file of the form, with every bit of every channel, at the same rate. If no
/// part is dropped, all of the recording is in it, but for the layout in a DSDIFF file and the channels' IDs in a DSF
/// file. A file that already has the form is written again.
///
/// Refusals, in this order: `FileUnread`; `NotWholeBytes` if `form` is DSDIFF and the number of bits of each channel
/// isn't a multiple of 8. Out of memory is always `Memory`.
#[tactic(auto, unfolding(crate::specs::Converting::converted_of))]
pub fn convert(alloc: Global, file: &[u8], form: Form) -> Result<Converted, Fault>
    // What is returned is the text of the file's recording in the form.
    ensures found { IfOk result (IsConverted file.now form) }
    // It holds the same sound again.
    ensures kept { IfOk result (IsKept file.now form) }
    // If no part was dropped, it holds the same recording again, but for what its form doesn't store.
    ensures whole { IfOk result (IsWhole file.now form) }
    // The answer or the fault is what reading in order ends with, unless memory runs out.
    ensures exact { GivesUnless Fault.Memory contents result (converted_of file.now form) }
{
    converted_is_kept();
    let opened = read_any(alloc, file)?;
    form_core::has_shape(&opened.recording);
    form_core::fields_fit(&opened.recording);
    let bytes = write_in(alloc, &opened.recording, form)?;
    let _ = bytes.len();
    let dropped = dropped_in(opened.recording.description(), form);
    Ok(Converted { bytes, dropped })
}

/// Reads a file of this outline again, and writes the file of the form that holds its recording, with every bit of
/// every channel. These are the bytes that [`convert`] returns for it. Returns how many parts of the recording have no
/// place in them. Of the sound it holds whole groups of the channels' blocks, at most 65,536 bytes, and what is made of
/// them. It holds what precedes the sound, and what follows it in a DSDIFF form, or the tag of a DSF file, once more.
///
/// Refusals: `NotWholeBytes` if `form` is DSDIFF and the number of bits of each channel isn't a multiple of 8, before
/// the first read and the first write; `FileRefused` if the file is no sound in the outline, for example because it was
/// changed since; `ReadFailed`, `WriteFailed`; `Memory`, also if there are more than `2^62` bytes around the sound of
/// the new file; `TurnLimit` after `2^40` reads, or at once if the inlet had counted `2^63` reads or bytes, or inlet or
/// outlet as many failures as they can. There are never more reads, whatever is returned. If the file is one of the
/// outline, what was written then is a prefix of what it is converted to.
pub fn convert_stream<R: Read, W: Write>(
    alloc: Global,
    outline: &Outline,
    form: Form,
    inlet: &mut Inlet<R>,
    outlet: &mut Outlet<W>,
) -> Result<u64, Fault>
    requires reported { AreStated (around_of outline.now) }
    // What the reader's file is converted to was written, and keeps its sound, and all of it if no part was dropped. This
    // holds however its bytes are split into reads.
    ensures ok { IfOk result (ConvertsAll R.remaining inlet.old form W.contents outlet.old outlet.new) }
    // If the reader's bytes aren't known, the same holds of what was read, as many bytes as were counted.
    ensures any_reader { IfOk result (Rewrites R.remaining inlet.old inlet.new form W.contents outlet.old outlet.new) }
    // If it is refused, and the reader's file is one of the outline, a prefix was written.
    ensures prefix { OnErr result (StartsFile R.remaining inlet.old outline.now form W.contents outlet.old outlet.new) }
    // A fault that is returned is true.
    ensures refused { IfErr result (ConversionApplies (left_in R.remaining inlet.old) (around_of outline.now) form) }
    ensures not_whole_bytes { (FitsIn form outline.now.sound.count → ⊥) → result ≡ Err Fault.NotWholeBytes }
    ensures read_failed { inlet_failures inlet.new ≡ inlet_failures inlet.old + failed_reads (as_stream result) }
    ensures write_failed { outlet_failures outlet.new
        ≡ outlet_failures outlet.old + failed_writes (as_stream result) }
    // Whatever is returned, there were at most 2^40 reads.
    ensures reads { inlet_reads inlet.new ≤ inlet_reads inlet.old + 2 ^ 40 }
    ensures turn_limit { IsErrOf result (Fault.Stream StreamFault.TurnLimit) → AreSpent outlet.old inlet.old inlet.new }
    // What is refused before the first read and the first write.
    ensures unread { IsErrOf result Fault.NotWholeBytes → inlet_reads inlet.new ≡ inlet_reads inlet.old }
    ensures unwritten { IsErrOf result Fault.NotWholeBytes → WritesNothing outlet.old outlet.new }
{
    written_in_parts();
    converted_is_kept();
    form_core::has_shape(&outline.recording);
    form_core::fields_fit(&outline.recording);
    let ends = ends_in(alloc, &outline.recording, form, outline.sound.count)?;
    if ends.head.len() + ends.tail.len() > 1 << 62 {
        return Err(Fault::Memory);
    }
    let target = NewFile {
        interleaving: interleaving_in(form),
        head: &ends.head,
        tail: &ends.tail,
    };
    relay(alloc, outline, &target, inlet, outlet)?;
    Ok(dropped_in(outline.recording.description(), form))
}
