//! Holds a file of a folder that can't be opened again.

ghost use Rattle.std.specs.Prelude.{◌≡◌, IfErr, IfOk, IfSome, []};
ghost use Rattle.folder_core.specs.Files.{IsReadOf};
ghost use Rattle.transfer_commands.specs.Opening.{left_of};
ghost use Rattle.transfer_commands.specs.Outlining.{IsUnoutlined, IsUnread};

use crate::fault::CommandFault;
use crate::opened::{OpenedFile, open_prefix};
use chunk_core::MOST_READS;
use dsd_bits::Sound;
use folder_core::{Folder, read_whole};
use std::alloc::Global;
use std::io::{Cursor, Read};

// No bytes, which a file that was held has left.
const NOTHING: [u8; 0] = [];

/// The bytes of a file, read to its end in one opening, however many there are. A file that is refused for what is
/// before its sound isn't held.
///
/// Refusals: `ReadFailed` if it can't be opened, a read fails, or `2^40` reads don't reach the sound, or as many more
/// the end; `FileUnread` with the first fault, for what is before the sound; `Memory`.
pub(crate) fn hold_file<F: Folder>(
    alloc: Global,
    folder: &mut F,
    name: &str,
) -> Result<Vec<u8>, CommandFault>
    ensures same { F.view folder.new ≡ F.view folder.old }
    ensures bytes { IfOk result (λ bytes. IsReadOf (F.view folder.old) name.now bytes.items) }
    ensures fault { IfErr result (IsUnoutlined name.now (F.view folder.old)) }
{
    let opened = open_prefix(alloc, folder, name)?;
    hold_opened(alloc, opened)
}

// The bytes of a file whose prefix was read.
fn hold_opened<R: Read + Drop>(
    alloc: Global,
    opened: OpenedFile<R>,
) -> Result<Vec<u8>, CommandFault>
    ensures bytes { IfOk result (λ bytes. IfSome (left_of R.remaining opened) (λ left. bytes.items ≡ left)) }
    ensures fault { IfErr result IsUnread }
{
    let OpenedFile {
        sound: _,
        prefix,
        file,
    } = opened;
    match read_whole(alloc, Cursor::new(prefix).chain(file), MOST_READS) {
        Ok(bytes) => Ok(bytes),
        Err(fault) => Err(CommandFault::from(fault)),
    }
}

/// A file that was held, with this sound, as one that was opened: all of it was read, and nothing is left.
pub(crate) fn opened_whole(sound: Sound, file: Vec<u8>) -> OpenedFile<&'static [u8]>
    ensures sound { result.sound ≡ sound }
    ensures bytes { result.prefix.items ≡ file.items }
    ensures none { result.file.now ≡ [] }
{
    OpenedFile {
        sound,
        prefix: file,
        file: NOTHING.as_slice(),
    }
}
