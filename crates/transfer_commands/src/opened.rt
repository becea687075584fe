//! A file of a folder whose prefix was read.

ghost use Rattle.std.specs.Prelude.{◌≡◌, ℕ, List, IfErr, IfOk};
ghost use Rattle.std.specs.Io.KnownBytes.{prepend_known};
ghost use Rattle.folder_core.specs.Files.{IsGiven};
ghost use Rattle.sound_core.specs.Files.{LeadsToSound};
ghost use Rattle.transfer_commands.specs.Outlining.{IsUnoutlined, IsUnoutlinedLeft, OutlinesLeft, OutlinesRead};
ghost use Rattle.transfer_commands.specs.Opening.{left_of};

use crate::fault::CommandFault;
use crate::gaps::{rest_but, sound_gap};
use crate::outlining::{outline_reader, refusal_of};
use chunk_core::Inlet;
use dsd_bits::Sound;
use folder_core::Folder;
use sound_core::{Outline, Prefix, read_prefix};
use std::alloc::Global;
use std::io::{Cursor, Read};

/// A file that was opened, and of which the first bytes were read, those that describe its sound.
#[derive(Drop)]
pub(crate) struct OpenedFile<R> {
    /// The sound.
    pub(crate) sound: Sound,
    /// The first bytes.
    pub(crate) prefix: Vec<u8>,
    /// The file, which has the others left.
    pub(crate) file: R,
}

/// Opens a file, and reads it until its first bytes describe its sound.
///
/// Refusals: `ReadFailed` if it can't be opened, a read fails, or `2^40` reads don't reach the sound; `FileUnread` with
/// the first fault of a file that holds no recording, whatever its sound is; `Memory`.
pub(crate) fn open_prefix<F: Folder>(
    alloc: Global,
    folder: &mut F,
    name: &str,
) -> Result<OpenedFile<F::In>, CommandFault>
    ensures same { F.view folder.new ≡ F.view folder.old }
    ensures states { IfOk result (λ o. LeadsToSound o.prefix.items o.sound) }
    ensures given { IfOk result (λ o. IsGiven (F.view folder.old) name.now (left_of F.In.remaining o)) }
    ensures fault { IfErr result (IsUnoutlined name.now (F.view folder.old)) }
{
    let Ok(file) = folder.open(name) else {
        return Err(CommandFault::ReadFailed);
    };
    let mut inlet = Inlet::new(file);
    match read_prefix(alloc, &mut inlet) {
        Ok(prefix) => Ok(opened_of(prefix, inlet.into_inner())),
        Err(unread) => Err(refusal_of(unread)),
    }
}

// A file whose prefix was read.
fn opened_of<R>(prefix: Prefix, file: R) -> OpenedFile<R>
    ensures sound { result.sound ≡ prefix.sound }
    ensures prefix { result.prefix.items ≡ prefix.bytes.items }
    ensures file { result.file ≡ file }
{
    let Prefix { sound, bytes } = prefix;
    OpenedFile {
        sound,
        prefix: bytes,
        file,
    }
}

/// What a file holds besides its sound, whose bytes the folder passes over if it can.
///
/// Refusals: `ReadFailed` if it can't be opened, a read fails, or it isn't at its end after `2^40` reads; `FileUnread`
/// with the first fault of a file that holds no recording; `Memory`.
pub(crate) fn outline_past_sound<F: Folder>(
    alloc: Global,
    folder: &mut F,
    name: &str,
) -> Result<Outline, CommandFault>
    ensures same { F.view folder.new ≡ F.view folder.old }
    ensures found { IfOk result (OutlinesRead name.now (F.view folder.old)) }
    ensures fault { IfErr result (IsUnoutlined name.now (F.view folder.old)) }
{
    let opened = open_prefix(alloc, folder, name)?;
    outline_opened(alloc, folder, opened)
}

// The same of a file whose prefix was read.
fn outline_opened<F: Folder>(
    alloc: Global,
    folder: &F,
    opened: OpenedFile<F::In>,
) -> Result<Outline, CommandFault>
    requires { LeadsToSound opened.prefix.items opened.sound }
    ensures found { IfOk result (OutlinesLeft (left_of F.In.remaining opened)) }
    ensures fault { IfErr result (IsUnoutlinedLeft (left_of F.In.remaining opened)) }
{
    let OpenedFile {
        sound,
        prefix,
        file,
    } = opened;
    let rest = rest_but(folder, &prefix, file, sound_gap(&sound));
    outline_reader(alloc, Cursor::new(prefix).chain(rest))
}
