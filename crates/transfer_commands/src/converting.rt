//! Converts a file of a folder to another.

ghost use Rattle.std.specs.Prelude.{◌↔◌, IsTrue};
ghost use Rattle.form_core.specs.Parts.{FitsIn};
ghost use Rattle.sound_core.specs.Outlines.{AreStated, around_of};
ghost use Rattle.transfer_commands.specs.Converting.{ConvertComesTo, ConvertsTo, HeldComesTo, OutlinedComesTo};

use crate::fault::CommandFault;
use crate::holding::hold_file;
use crate::outlining::outline_file;
use chunk_core::{Inlet, Outlet};
use folder_core::{Folder, hand_back, write_file};
use form_core::{Form, held_is_opened, written_in_parts};
use sound_core::{Outline, StreamFault};
use std::alloc::Global;
use std::io::{Read, Write};
use transfer_core::{Fault, convert, convert_stream};

/// Converts a file to the other form. Returns how many parts of its recording have no place in it.
///
/// A file that can be opened again is read in one pass, which doesn't hold its sound. Then it is opened once more, the
/// other file is created, and the one is converted to the other block by block. After a fault of that the other file
/// may hold a prefix of what was due, but a folder that keeps old files keeps an old one.
///
/// Any other file, as a pipe, is opened once. If what is before its sound doesn't refuse it, it is held whole and
/// converted in memory, and only then the other file is created.
///
/// If a file was changed around its sound between its readings, the answer is `ReadFailed`. If its sound was changed,
/// the last reading counts.
pub fn convert_file<F: Folder>(
    alloc: Global,
    folder: &mut F,
    form: Form,
    input: &str,
    output: &str,
) -> Result<u64, CommandFault>
    ensures { ConvertComesTo form input.now output.now (F.view folder.old) (F.view folder.new) result }
{
    if folder.reopens(input) {
        let outline = outline_file(alloc, folder, input)?;
        return convert_outlined(alloc, folder, form, &outline, input, output);
    }
    let file = hold_file(alloc, folder, input)?;
    convert_whole(alloc, folder, form, &file, output)
}

// Converts a file that was read whole, and only then creates the other.
fn convert_whole<F: Folder>(
    alloc: Global,
    folder: &mut F,
    form: Form,
    file: &[u8],
    output: &str,
) -> Result<u64, CommandFault>
    ensures { HeldComesTo file.now form output.now (F.view folder.old) (F.view folder.new) result }
{
    let converted = convert(alloc, file, form)?;
    write_file(folder, output, &converted.bytes)?;
    Ok(converted.dropped)
}

// Opens a file of this outline once more, creates the other, and converts the one to the other. It keeps this one, or
// gives it up after a fault.
fn convert_outlined<F: Folder>(
    alloc: Global,
    folder: &mut F,
    form: Form,
    outline: &Outline,
    input: &str,
    output: &str,
) -> Result<u64, CommandFault>
    requires reported { AreStated (around_of outline.now) }
    ensures { OutlinedComesTo outline.now form input.now output.now (F.view folder.old) (F.view folder.new) result }
{
    held_is_opened();
    written_in_parts();
    if !fits_in(form, outline.sound.count) {
        return Err(CommandFault::Call(Fault::NotWholeBytes));
    }
    let Ok(file) = folder.open(input) else {
        return Err(CommandFault::ReadFailed);
    };
    let Ok(made) = folder.create(output) else {
        return Err(CommandFault::WriteFailed);
    };
    let (came, made) = convert_between(alloc, form, outline, file, made);
    let handed = hand_back(folder, output, &came, made);
    match came {
        Ok(dropped) => match handed {
            Ok(()) => Ok(dropped),
            Err(_) => Err(CommandFault::WriteFailed),
        },
        Err(Fault::Stream(StreamFault::WriteFailed)) => Err(CommandFault::WriteFailed),
        Err(Fault::Memory) => Err(CommandFault::Call(Fault::Memory)),
        Err(_) => Err(CommandFault::ReadFailed),
    }
}

// Converts a file of this outline to one that was created, and returns that one.
fn convert_between<R: Read + Drop, W: Write>(
    alloc: Global,
    form: Form,
    outline: &Outline,
    file: R,
    made: W,
) -> (Result<u64, Fault>, W)
    requires reported { AreStated (around_of outline.now) }
    ensures { ConvertsTo outline.now form (R.remaining file) (W.contents made) (W.contents result.1) result.0 }
{
    let mut inlet = Inlet::new(file);
    let mut outlet = Outlet::new(made);
    let came = convert_stream(alloc, outline, form, &mut inlet, &mut outlet);
    (came, outlet.into_inner())
}

/// Whether a form has a place for channels of `count` bits.
pub(crate) fn fits_in(form: Form, count: usize) -> bool
    ensures { IsTrue result ↔ FitsIn form count }
{
    match form {
        Form::Dsdiff => count % 8 == 0,
        Form::Dsf | Form::Dsf8 => true,
    }
}
