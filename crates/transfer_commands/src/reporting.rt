//! Reads a file of a folder to report what it holds, and opens it to be played.

ghost use Rattle.std.specs.Prelude.{◌≡◌, ◌≤◌, IfErr, IfOk, List, Some, ℕ, length};
ghost use Rattle.dsd_bits.specs.Limits.{most_bits};
ghost use Rattle.folder_core.specs.Files.{IsGiven};
ghost use Rattle.sound_core.specs.Files.{LeadsToSound};
ghost use Rattle.transfer_commands.specs.Opening.{left_of};
ghost use Rattle.transfer_commands.specs.Outlining.{IsOutlined, IsUnoutlined};
ghost use Rattle.transfer_commands.specs.PartPlaying.{DescribesRead, ReportsRead};
ghost use Rattle.transfer_commands.specs.Reporting.{IsReportOf, ReportComesTo};

use crate::fault::CommandFault;
use crate::holding::{hold_file, opened_whole};
use crate::opened::{OpenedFile, open_prefix, outline_past_sound};
use crate::outlining::{outline_file, outline_reader};
use dsd_bits::Description;
use folder_core::Folder;
use form_core::{Form, form_in};
use sound_core::Outline;
use std::alloc::Global;

/// What a file holds, but for the bits of its sound.
#[derive(Drop)]
pub struct Reported {
    /// The file's form.
    pub form: Form,
    /// The recording that it holds, without its bits.
    pub description: Description,
}

/// A file that was opened to be played, and what is reported of it.
#[derive(Drop)]
pub(crate) struct ReportedFile<R> {
    /// What it holds.
    pub(crate) reported: Reported,
    /// The file.
    pub(crate) opened: OpenedFile<R>,
}

/// What a file holds, without its bits. It is read in one pass, which doesn't hold its sound.
pub fn open_file<F: Folder>(
    alloc: Global,
    folder: &mut F,
    file: &str,
) -> Result<Reported, CommandFault>
    ensures { ReportComesTo file.now (F.view folder.old) (F.view folder.new) result }
{
    let outline = outline_file(alloc, folder, file)?;
    Ok(reported_by(outline))
}

/// The same, but the folder passes over the sound's bytes if it can.
pub(crate) fn open_past_sound<F: Folder>(
    alloc: Global,
    folder: &mut F,
    file: &str,
) -> Result<Reported, CommandFault>
    ensures { ReportComesTo file.now (F.view folder.old) (F.view folder.new) result }
{
    let outline = outline_past_sound(alloc, folder, file)?;
    Ok(reported_by(outline))
}

/// Reports a file that can be opened again, and opens it to be played. The folder passes over the sound's bytes if it
/// can.
///
/// Refusals of each opening: `ReadFailed` if it fails, a read fails, or the file isn't at its end after `2^40` reads;
/// `FileUnread` with the first fault of a file that holds no recording; `Memory`.
pub(crate) fn open_reported<F: Folder>(
    alloc: Global,
    folder: &mut F,
    name: &str,
) -> Result<ReportedFile<F::In>, CommandFault>
    ensures same { F.view folder.new ≡ F.view folder.old }
    ensures reports { IfOk result (λ r. ReportsRead name.now (F.view folder.old) r.reported) }
    ensures states { IfOk result (λ r. LeadsToSound r.opened.prefix.items r.opened.sound) }
    ensures given { IfOk result (λ r. IsGiven (F.view folder.old) name.now (left_of F.In.remaining r.opened)) }
    ensures described { IfOk result (λ r. DescribesRead name.now (F.view folder.old) r.opened.sound) }
    ensures fault { IfErr result (IsUnoutlined name.now (F.view folder.old)) }
{
    let reported = open_past_sound(alloc, folder, name)?;
    let opened = open_prefix(alloc, folder, name)?;
    Ok(ReportedFile { reported, opened })
}

/// The same of a file that can't be opened again. It is opened once and held whole.
///
/// Refusals: those of [`hold_file`], and then those of [`outline_reader`], for the rest of the file.
pub(crate) fn hold_reported<F: Folder>(
    alloc: Global,
    folder: &mut F,
    name: &str,
) -> Result<ReportedFile<&'static [u8]>, CommandFault>
    ensures same { F.view folder.new ≡ F.view folder.old }
    ensures reports { IfOk result (λ r. ReportsRead name.now (F.view folder.old) r.reported) }
    ensures states { IfOk result (λ r. (prefix : List ℕ) × LeadsToSound prefix r.opened.sound) }
    ensures within { IfOk result (λ r. r.opened.sound.start ≤ length r.opened.prefix.items) }
    ensures given { IfOk result (λ r. IsGiven (F.view folder.old) name.now (left_of (λ file. Some file.now) r.opened)) }
    ensures described { IfOk result (λ r. DescribesRead name.now (F.view folder.old) r.opened.sound) }
    ensures fault { IfErr result (IsUnoutlined name.now (F.view folder.old)) }
{
    let file = hold_file(alloc, folder, name)?;
    let outline = outline_reader(alloc, file.as_slice())?;
    let opened = opened_whole(outline.sound, file);
    let reported = reported_by(outline);
    Ok(ReportedFile { reported, opened })
}

/// What is reported of a file by its outline.
pub(crate) fn reported_by(outline: Outline) -> Reported
    requires { outline.sound.count ≤ most_bits }
    ensures { (file : _) → IsOutlined file outline → IsReportOf file result }
{
    let form = form_in(outline.sound.interleaving);
    let count = outline.sound.count;
    Reported {
        form,
        description: outline.recording.into_description().with_count(count),
    }
}
