//! Converts a file of DoP samples of a folder to another.

ghost use Rattle.std.specs.Prelude.{◌≡◌, List, Option, ℕ, IfErr, IfOk};
ghost use Rattle.dop_core.specs.Outlines.{IsOutline};
ghost use Rattle.dop_core.specs.Pieces.{IfRefused};
ghost use Rattle.form_core.specs.Parts.{FitsIn};
ghost use Rattle.transfer_commands.specs.DopConverting.{ConvertDopComesTo, ConvertsDopTo, IsFirstDopFault, IsRefusal, IsUnscanned, IsUnscannedLeft, ReadComesTo, ScannedComesTo, ScansLeft, ScansRead};
ghost use Rattle.transfer_commands.specs.Faults.{of_file};
ghost use Rattle.transfer_commands.specs.declared.convert_dop.DopConvertFault.TheVariants as faults;

use crate::converting::fits_in;
use crate::fault::CommandFault;
use chunk_core::{Inlet, Outlet};
use dop_core::{DopFault, DopOutline, DopStop, convert_dop, scan_dop};
use folder_core::{FileFault, Folder, hand_back, read_file, write_file};
use form_core::{Form, WriteFault, write_in, written_in_parts};
use std::alloc::Global;
use std::io::{Read, Write};
use transfer_core::Fault;

/// Why a command that converts a file of DoP samples is refused.
#[derive(Clone, Copy)]
pub enum DopConvertFault {
    /// As of any command.
    Command(CommandFault),
    /// The file isn't one of DoP samples, for this fault, the first one.
    Refused(DopFault),
}

impl From<FileFault> for DopConvertFault {
    ghost from_gives = { λ fault refused. refused ≡ faults.Command (of_file fault) };

    fn from(fault: FileFault) -> DopConvertFault {
        DopConvertFault::Command(CommandFault::from(fault))
    }
}

/// Writes the recording whose bits a WAVE file of DoP samples has as a file of the form.
///
/// A file that can be opened again is looked through in one pass, which doesn't hold its samples. Then it is opened once
/// more, the other file is created, and the one is converted to the other piece by piece. After a fault of that the
/// other file may hold a prefix of what was due, but a folder that keeps old files keeps an old one. Any other file, as
/// a pipe, is opened once and held whole, and only then the other file is created.
///
/// Refusals, in this order: `ReadFailed`, the first fault of a file that isn't one of DoP samples, `NotWholeBytes` if the
/// form is DSDIFF and the number of bits of each channel isn't a multiple of 8, `WriteFailed`. Out of memory is `Memory`.
/// If a file was changed around its samples between its readings, or has other markers then, the answer is
/// `ReadFailed`. If its bits were changed, the last reading counts.
pub fn convert_dop_file<F: Folder>(
    alloc: Global,
    folder: &mut F,
    form: Form,
    input: &str,
    output: &str,
) -> Result<(), DopConvertFault>
    ensures { ConvertDopComesTo form input.now output.now (F.view folder.old) (F.view folder.new) result }
{
    if folder.reopens(input) {
        let outline = scan_file(alloc, folder, input)?;
        return convert_scanned(alloc, folder, form, &outline, input, output);
    }
    let file = read_file(alloc, folder, input)?;
    convert_read(alloc, folder, form, &file, output)
}

// Looks through a file of DoP samples.
fn scan_file<F: Folder>(
    alloc: Global,
    folder: &mut F,
    name: &str,
) -> Result<DopOutline, DopConvertFault>
    ensures same { F.view folder.new ≡ F.view folder.old }
    ensures outline { IfOk result IsOutline }
    ensures found { IfOk result (ScansRead name.now (F.view folder.old)) }
    ensures fault { IfErr result (IsUnscanned name.now (F.view folder.old)) }
{
    let Ok(file) = folder.open(name) else {
        return Err(DopConvertFault::Command(CommandFault::ReadFailed));
    };
    scan_reader(alloc, file)
}

// Looks through a reader's file.
fn scan_reader<R: Read + Drop>(alloc: Global, reader: R) -> Result<DopOutline, DopConvertFault>
    ensures found { IfOk result (ScansLeft (R.remaining reader)) }
    ensures fault { IfErr result (IsUnscannedLeft (R.remaining reader)) }
{
    let mut inlet = Inlet::new(reader);
    match scan_dop(alloc, &mut inlet) {
        Ok(outline) => Ok(outline),
        Err(stop) => Err(refusal_by(stop)),
    }
}

// Why a file isn't looked through, as the command returns it.
fn refusal_by(stop: DopStop) -> DopConvertFault
    ensures { (left : Option (List ℕ)) → IfRefused stop (IsFirstDopFault left) → IsUnscannedLeft left result }
{
    match stop {
        DopStop::Refused(fault) => refusal_of(fault),
        DopStop::Memory => DopConvertFault::Command(CommandFault::Call(Fault::Memory)),
        DopStop::ReadFailed | DopStop::WriteFailed | DopStop::Changed => {
            DopConvertFault::Command(CommandFault::ReadFailed)
        }
    }
}

// Opens a file of this outline once more, creates the other, and converts the one to the other. It keeps this one, or
// gives it up after a fault.
fn convert_scanned<F: Folder>(
    alloc: Global,
    folder: &mut F,
    form: Form,
    outline: &DopOutline,
    input: &str,
    output: &str,
) -> Result<(), DopConvertFault>
    requires outline { IsOutline outline.now }
    ensures { ScannedComesTo outline.now form input.now output.now (F.view folder.old) (F.view folder.new) result }
{
    written_in_parts();
    if !fits_in(form, outline.count()) {
        return Err(DopConvertFault::Command(CommandFault::Call(Fault::NotWholeBytes)));
    }
    let Ok(file) = folder.open(input) else {
        return Err(DopConvertFault::Command(CommandFault::ReadFailed));
    };
    let Ok(made) = folder.create(output) else {
        return Err(DopConvertFault::Command(CommandFault::WriteFailed));
    };
    let (came, made) = convert_dop_between(alloc, form, outline, file, made);
    let handed = hand_back(folder, output, &came, made);
    match came {
        Ok(()) => match handed {
            Ok(()) => Ok(()),
            Err(_) => Err(DopConvertFault::Command(CommandFault::WriteFailed)),
        },
        Err(DopStop::WriteFailed) => Err(DopConvertFault::Command(CommandFault::WriteFailed)),
        Err(DopStop::Memory) => Err(DopConvertFault::Command(CommandFault::Call(Fault::Memory))),
        Err(_) => Err(DopConvertFault::Command(CommandFault::ReadFailed)),
    }
}

// Converts a file of this outline to one that was created, and returns that one.
fn convert_dop_between<R: Read + Drop, W: Write>(
    alloc: Global,
    form: Form,
    outline: &DopOutline,
    file: R,
    made: W,
) -> (Result<(), DopStop>, W)
    requires outline { IsOutline outline.now }
    requires fits { FitsIn form outline.now.count }
    ensures { ConvertsDopTo outline.now form (R.remaining file) (W.contents made) (W.contents result.1) result.0 }
{
    let mut inlet = Inlet::new(file);
    let mut outlet = Outlet::new(made);
    let came = convert_dop(alloc, outline, form, &mut inlet, &mut outlet);
    (came, outlet.into_inner())
}

// Converts a file that was read, and only then creates the other.
fn convert_read<F: Folder>(
    alloc: Global,
    folder: &mut F,
    form: Form,
    file: &[u8],
    output: &str,
) -> Result<(), DopConvertFault>
    ensures { ReadComesTo file.now form output.now (F.view folder.old) (F.view folder.new) result }
{
    let recording = match dop_core::read(alloc, file) {
        Ok(recording) => recording,
        Err(fault) => return Err(refusal_of(fault)),
    };
    let bytes = match write_in(alloc, &recording, form) {
        Ok(bytes) => bytes,
        Err(WriteFault::NotWholeBytes) => {
            return Err(DopConvertFault::Command(CommandFault::Call(Fault::NotWholeBytes)));
        }
        Err(WriteFault::Memory) => {
            return Err(DopConvertFault::Command(CommandFault::Call(Fault::Memory)));
        }
    };
    write_file(folder, output, &bytes)?;
    Ok(())
}

// Why a file isn't read, as the command returns it.
fn refusal_of(fault: DopFault) -> DopConvertFault
    ensures { IsRefusal fault result }
{
    match fault {
        DopFault::Memory => DopConvertFault::Command(CommandFault::Call(Fault::Memory)),
        fault => DopConvertFault::Refused(fault),
    }
}
