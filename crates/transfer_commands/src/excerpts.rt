//! Reads what a splice needs of the files of its takes.

ghost use Rattle.std.specs.Prelude.{◌≡◌, ◌<◌, IfErr, IfOk, length};
ghost use Rattle.splice_core.specs.Splices.{splice_content};
ghost use Rattle.cut_core.specs.Opening.{IsOfTake, fault_of_take};
ghost use Rattle.transfer_commands.specs.Excerpts.{AreExcerptsInSome, AreExcerptsLeft, AreOfTakes, KeepsExcerpts, ReadsTake, ReadsTakes, StreamsRead};
ghost use Rattle.transfer_commands.specs.Outlining.{IsUnread};

use crate::fault::CommandFault;
use chunk_core::Inlet;
use cut_core::{CutFault, Excerpts, push_excerpts, ranges_of};
use folder_core::Folder;
use form_core::{ReadFault, has_shape, held_is_opened};
use sound_core::{Kept, StreamFault, Unread, read_stretches};
use splice_core::Splice;
use std::alloc::Global;
use std::io::Read;
use transfer_core::Fault;

/// What a splice reads of the files of its takes. Each is read before the next is opened, and only the bits that the
/// splice reads are kept. The first fault in what they hold is returned only after all of them were read.
///
/// A file is read in one pass, which doesn't hold its sound.
///
/// Refusals: `ReadFailed` for the first file that can't be opened or read; `Memory`.
pub(crate) fn read_excerpts<F: Folder>(
    alloc: Global,
    folder: &mut F,
    splice: &Splice,
) -> Result<Result<Vec<Excerpts>, CutFault>, CommandFault>
    ensures same { F.view folder.new ≡ F.view folder.old }
    ensures excerpts { IfOk result (ReadsTakes (F.view folder.old) (splice_content splice.now)) }
    ensures of { IfOk result (AreOfTakes (splice_content splice.now)) }
    ensures fault { IfErr result IsUnread }
{
    let mut excerpts = Ok(Vec::new(alloc));
    for number in 0..splice.takes.len() {
        let next = named_excerpts(alloc, folder, splice, number)?;
        excerpts = push_excerpts(excerpts, next);
    }
    Ok(excerpts)
}

// What a splice reads of the file of the take with this number.
fn named_excerpts<F: Folder>(
    alloc: Global,
    folder: &mut F,
    splice: &Splice,
    number: usize,
) -> Result<Result<Excerpts, CutFault>, CommandFault>
    requires { number < length (splice_content splice.now).takes }
    ensures same { F.view folder.new ≡ F.view folder.old }
    ensures excerpts { IfOk result (ReadsTake (F.view folder.old) (splice_content splice.now) number) }
    ensures of { IfOk result (IsOfTake (splice_content splice.now) number) }
    ensures fault { IfErr result IsUnread }
{
    held_is_opened();
    let name = &splice.takes[number];
    streamed_excerpts(alloc, folder, splice, number, name)
}

// What a splice reads of the file of this name, the take with this number, in one pass, or the file's fault.
fn streamed_excerpts<F: Folder>(
    alloc: Global,
    folder: &mut F,
    splice: &Splice,
    number: usize,
    name: &str,
) -> Result<Result<Excerpts, CutFault>, CommandFault>
    ensures same { F.view folder.new ≡ F.view folder.old }
    ensures excerpts { IfOk result (StreamsRead (F.view folder.old) (splice_content splice.now) number name.now) }
    ensures of { IfOk result (IsOfTake (splice_content splice.now) number) }
    ensures fault { IfErr result IsUnread }
{
    match folder.open(name) {
        Ok(file) => reader_excerpts(alloc, splice, number, file),
        Err(_) => Err(CommandFault::ReadFailed),
    }
}

// The same for the file that a reader has.
fn reader_excerpts<R: Read + Drop>(
    alloc: Global,
    splice: &Splice,
    number: usize,
    file: R,
) -> Result<Result<Excerpts, CutFault>, CommandFault>
    ensures excerpts { IfOk result (AreExcerptsLeft (R.remaining file) (splice_content splice.now) number) }
    // If the reader's bytes aren't known, some bytes that were read hold what the splice reads.
    ensures any_reader { IfOk result (AreExcerptsInSome (splice_content splice.now) number) }
    ensures of { IfOk result (IsOfTake (splice_content splice.now) number) }
    ensures fault { IfErr result IsUnread }
{
    let Ok(ranges) = ranges_of(alloc, splice, number) else {
        return Err(CommandFault::Call(Fault::Memory));
    };
    let mut inlet = Inlet::new(file);
    match read_stretches(alloc, &mut inlet, &ranges) {
        Ok(kept) => Ok(Ok(excerpts_by(kept))),
        Err(Unread::Refused(fault)) => Ok(Err(take_unread(number, fault))),
        Err(Unread::Stream(StreamFault::Memory)) => Err(CommandFault::Call(Fault::Memory)),
        Err(Unread::Stream(_)) => Err(CommandFault::ReadFailed),
    }
}

// The fault of the file of the take with this number.
fn take_unread(number: usize, fault: ReadFault) -> CutFault
    ensures { result ≡ fault_of_take number fault }
{
    match fault {
        ReadFault::Memory => CutFault::Memory,
        fault => CutFault::TakeUnread(number, fault),
    }
}

// What a splice reads, from what was kept of a file.
fn excerpts_by(kept: Kept) -> Excerpts
    ensures { KeepsExcerpts kept result }
{
    let Kept { outline, stretches } = kept;
    has_shape(&outline.recording);
    let count = outline.sound.count;
    Excerpts {
        recording: outline.recording,
        count,
        stretches,
    }
}
