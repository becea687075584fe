//! Converts a file of a folder to another that names the loudspeakers of its channels.

ghost use Rattle.std.specs.Prelude.{◌≡◌, ◌≤◌, List, ℕ, IfErr, IfOk, None, Option, Some, length};
ghost use Rattle.folder_core.specs.Files.{IsGiven, IsReadOf};
ghost use Rattle.form_core.specs.Parts.{FitsIn};
ghost use Rattle.sound_core.specs.Outlines.{AreStated, around_of};
ghost use Rattle.transfer_commands.specs.Opening.{left_of};
ghost use Rattle.transfer_commands.specs.Outlining.{OutlinesRead};
ghost use Rattle.transfer_commands.specs.Renaming.{IsRenaming, left_parts};
ghost use Rattle.transfer_commands.specs.SpeakersConverting.{ConvertSpeakersComesTo};
ghost use Rattle.transfer_commands.specs.declared.convert_speakers.SpeakersFault.TheVariants as faults;
ghost use Rattle.transfer_commands.specs.declared.fault.CommandFault.TheVariants as commands;

use crate::fault::CommandFault;
use crate::holding::{hold_file, opened_whole};
use crate::opened::{OpenedFile, open_prefix};
use crate::outlining::{outline_file, outline_reader};
use crate::renaming::{Parts, Renaming, relay_renamed, renaming_of};
use crate::speaking::split;
use folder_core::{Folder, hand_back};
use form_core::{Form, dropped_in, written_in_parts};
use sound_core::{Outline, StreamFault};
use std::alloc::Global;
use std::io::Read;
use transfer_core::Fault;

/// Why a command that converts a file by its loudspeakers is refused.
#[derive(Clone, Copy)]
pub enum SpeakersFault {
    /// As of any command.
    Command(CommandFault),
    /// No channel type of DSF has the loudspeakers that the IDs of the channels name, or not each ID names one.
    NoChannelType,
}

impl From<Fault> for SpeakersFault {
    ghost from_gives = { λ fault refused. refused ≡ faults.Command (commands.Call fault) };

    fn from(fault: Fault) -> SpeakersFault {
        SpeakersFault::Command(CommandFault::Call(fault))
    }
}

impl From<CommandFault> for SpeakersFault {
    ghost from_gives = { λ fault refused. refused ≡ faults.Command fault };

    fn from(fault: CommandFault) -> SpeakersFault {
        SpeakersFault::Command(fault)
    }
}

/// Converts a file to the other form as [`convert_file`](crate::convert_file) does, but so that the other file says
/// which loudspeakers the channels belong to. Returns how many parts of its recording have no place in it.
///
/// - A DSDIFF file of a DSF file gets the IDs that name the loudspeakers of its channel type, in place of `C000` and so
///   on: `C   ` for one channel, `SLFT` and `SRGT` for two, otherwise `MLFT`, `MRGT`, `C   `, `LFE `, `LS  `, `RS  ` as
///   far as it has them.
/// - A DSF file of a DSDIFF file gets the channel type that has the loudspeakers that the IDs name, in place of the usual
///   one for their number, and its channels come in the order of that type. If there is none, it is refused: any type
///   would say of a channel what its ID doesn't.
/// - A file whose form names loudspeakers in the same way is converted as `convert_file` does.
///
/// Refusals, in this order: `ReadFailed`; `FileUnread` with the first fault; `NoChannelType`; `NotWholeBytes`; then
/// `ReadFailed` or `WriteFailed`, after which the output may hold a prefix of what was due, but a folder that keeps old
/// files keeps an old one. Out of memory is `Memory`.
///
/// The file is opened and read as by `convert_file`. If it was changed around its sound between its readings, the answer
/// is `ReadFailed`. If its sound was changed, the last reading counts.
pub fn convert_speakers_file<F: Folder>(
    alloc: Global,
    folder: &mut F,
    form: Form,
    input: &str,
    output: &str,
) -> Result<u64, SpeakersFault>
    ensures { ConvertSpeakersComesTo form input.now output.now (F.view folder.old) (F.view folder.new) result }
{
    if folder.reopens(input) {
        let outline = outline_file(alloc, folder, input)?;
        let renaming = found(renaming_of(alloc, &outline, form)?)?;
        let opened = open_prefix(alloc, folder, input)?;
        return convert_opened(alloc, folder, &outline, renaming, opened, output);
    }
    let file = hold_file(alloc, folder, input)?;
    convert_held(alloc, folder, form, file, output)
}

// Converts a file that was read whole.
fn convert_held<F: Folder>(
    alloc: Global,
    folder: &mut F,
    form: Form,
    file: Vec<u8>,
    output: &str,
) -> Result<u64, SpeakersFault>
    ensures { (input : List ℕ) → IsReadOf (F.view folder.old) input file.items
        → ConvertSpeakersComesTo form input output.now (F.view folder.old) (F.view folder.new) result }
{
    let outline = outline_reader(alloc, file.as_slice())?;
    let renaming = found(renaming_of(alloc, &outline, form)?)?;
    let opened = opened_whole(outline.sound, file);
    convert_opened(alloc, folder, &outline, renaming, opened, output)
}

// What is written, if there is something.
fn found(renaming: Option<Renaming>) -> Result<Renaming, SpeakersFault>
    ensures ok { IfOk result (λ r. renaming ≡ Some r) }
    ensures err { IfErr result (λ fault. (fault ≡ faults.NoChannelType) × (renaming ≡ None)) }
{
    match renaming {
        Some(renaming) => Ok(renaming),
        None => Err(SpeakersFault::NoChannelType),
    }
}

// Creates a file, and writes what is made of one of this outline that was opened. It keeps it, or gives it up after a
// fault.
fn convert_opened<F: Folder, R: Read + Drop>(
    alloc: Global,
    folder: &mut F,
    outline: &Outline,
    renaming: Renaming,
    opened: OpenedFile<R>,
    output: &str,
) -> Result<u64, SpeakersFault>
    requires stated { AreStated (around_of outline.now) }
    requires fits { FitsIn renaming.form outline.now.sound.count }
    requires within { opened.sound.start ≤ length opened.prefix.items }
    ensures { (form : Form) (input : List ℕ) → OutlinesRead input (F.view folder.old) outline.now
        → IsRenaming form (around_of outline.now) renaming
        → IsGiven (F.view folder.old) input (left_of R.remaining opened)
        → ConvertSpeakersComesTo form input output.now (F.view folder.old) (F.view folder.new) result }
{
    written_in_parts();
    if opened.sound != outline.sound {
        return Err(SpeakersFault::Command(CommandFault::ReadFailed));
    }
    let dropped = dropped_in(outline.recording.description(), renaming.form);
    let parts = parts_of(alloc, opened)?;
    let Ok(made) = folder.create(output) else {
        return Err(SpeakersFault::Command(CommandFault::WriteFailed));
    };
    let (came, made) = relay_renamed(alloc, outline, renaming, parts, made);
    let handed = hand_back(folder, output, &came, made);
    match came {
        Ok(()) => match handed {
            Ok(()) => Ok(dropped),
            Err(_) => Err(SpeakersFault::Command(CommandFault::WriteFailed)),
        },
        Err(StreamFault::WriteFailed) => Err(SpeakersFault::Command(CommandFault::WriteFailed)),
        Err(StreamFault::Memory) => Err(SpeakersFault::Command(CommandFault::Call(Fault::Memory))),
        Err(_) => Err(SpeakersFault::Command(CommandFault::ReadFailed)),
    }
}

/// The parts of a file that was opened.
pub(crate) fn parts_of<R: Drop>(alloc: Global, opened: OpenedFile<R>) -> Result<Parts<R>, Fault>
    requires within { opened.sound.start ≤ length opened.prefix.items }
    ensures start { IfOk result (λ p. length p.head.items ≡ opened.sound.start) }
    ensures left { IfOk result (λ p. (left : R → Option (List ℕ)) → left_parts left p ≡ left_of left opened) }
    ensures fault { IfErr result (λ fault. fault ≡ Fault.Memory) }
{
    let OpenedFile {
        sound,
        prefix,
        file,
    } = opened;
    match split(alloc, prefix, sound.start) {
        Ok((head, tail)) => Ok(Parts { head, tail, file }),
        Err(_) => Err(Fault::Memory),
    }
}
