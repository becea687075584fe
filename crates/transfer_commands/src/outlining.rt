//! Reads what a file of a folder holds besides its sound.

ghost use Rattle.std.specs.Prelude.{◌≡◌, List, Option, ℕ, IfErr, IfOk};
ghost use Rattle.sound_core.specs.Naming.{IfRefusedAs};
ghost use Rattle.sound_core.specs.Outlines.{AreStated, around_of};
ghost use Rattle.transfer_commands.specs.Outlining.{IsFirstFault, IsUnoutlined, IsUnoutlinedLeft, OutlinesLeft, OutlinesRead};

use crate::fault::CommandFault;
use chunk_core::Inlet;
use folder_core::Folder;
use sound_core::{Outline, StreamFault, Unread, read_outline};
use std::alloc::Global;
use std::io::Read;
use transfer_core::Fault;

/// What a file holds besides its sound, read in one pass.
///
/// Refusals: `ReadFailed` if it can't be opened, a read fails, or it isn't at its end after `2^40` reads; `FileUnread`
/// with the first fault of a file that holds no recording; `Memory`.
pub(crate) fn outline_file<F: Folder>(
    alloc: Global,
    folder: &mut F,
    name: &str,
) -> Result<Outline, CommandFault>
    ensures same { F.view folder.new ≡ F.view folder.old }
    ensures around { IfOk result (λ outline. AreStated (around_of outline)) }
    ensures found { IfOk result (OutlinesRead name.now (F.view folder.old)) }
    ensures fault { IfErr result (IsUnoutlined name.now (F.view folder.old)) }
{
    let Ok(file) = folder.open(name) else {
        return Err(CommandFault::ReadFailed);
    };
    outline_reader(alloc, file)
}

/// The same of a reader's file.
pub(crate) fn outline_reader<R: Read + Drop>(
    alloc: Global,
    reader: R,
) -> Result<Outline, CommandFault>
    ensures found { IfOk result (OutlinesLeft (R.remaining reader)) }
    ensures fault { IfErr result (IsUnoutlinedLeft (R.remaining reader)) }
{
    let mut inlet = Inlet::new(reader);
    match read_outline(alloc, &mut inlet) {
        Ok(outline) => Ok(outline),
        Err(unread) => Err(refusal_of(unread)),
    }
}

/// Why a file isn't read to what it holds, as a command returns it: the first fault of one that holds no recording.
pub(crate) fn refusal_of(unread: Unread) -> CommandFault
    ensures { (left : Option (List ℕ)) → IfRefusedAs unread (IsFirstFault left) → IsUnoutlinedLeft left result }
{
    match unread {
        Unread::Refused(fault) => CommandFault::Call(Fault::from(fault)),
        Unread::Stream(StreamFault::Memory) => CommandFault::Call(Fault::Memory),
        Unread::Stream(_) => CommandFault::ReadFailed,
    }
}
