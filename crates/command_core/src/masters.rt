//! Reads a master's file to judge it.

ghost use Rattle.std.specs.Prelude.{◌≡◌, IfErr, IfOk, IfSome};
ghost use Rattle.judge_core.specs.Finding.{IsFoundHeld, IsFoundInSome};
ghost use Rattle.transfer_commands.specs.Outlining.{IsUnread};
ghost use Rattle.command_core.specs.Masters.{FindsMaster};

use chunk_core::Inlet;
use cut_core::Cut;
use folder_core::{Folder, reads_to_end};
use form_core::ReadFault;
use judge_core::{Found, find_master};
use sound_core::StreamFault;
use std::alloc::Global;
use std::io::Read;
use transfer_commands::CommandFault;
use transfer_core::Fault;

/// What is found in a master that is to be judged by a cut, or the first fault of a file that holds no recording. The
/// file is read once, to its end, and its sound isn't held.
///
/// Refusals: `ReadFailed` if it can't be opened, a read fails, or it isn't at its end after `2^40` reads; `Memory`.
pub(crate) fn find_named<F: Folder>(
    alloc: Global,
    folder: &mut F,
    cut: &Cut,
    name: &str,
) -> Result<Result<Found, ReadFault>, CommandFault>
    ensures same { F.view folder.new ≡ F.view folder.old }
    ensures found { IfOk result (FindsMaster (F.view folder.old) cut.now name.now) }
    ensures some { IfOk result (IsFoundInSome cut.now) }
    ensures fault { IfErr result IsUnread }
{
    match folder.open(name) {
        Ok(file) => find_in(alloc, cut, file),
        Err(_) => Err(CommandFault::ReadFailed),
    }
}

// The same for the file that a reader has.
fn find_in<R: Read + Drop>(
    alloc: Global,
    cut: &Cut,
    file: R,
) -> Result<Result<Found, ReadFault>, CommandFault>
    ensures found { IfOk result (λ found. IfSome (R.remaining file) (λ left. IsFoundHeld cut.now left found)) }
    // If the reader's bytes aren't known, it was found in some bytes that were read.
    ensures some { IfOk result (IsFoundInSome cut.now) }
    ensures fault { IfErr result IsUnread }
{
    let mut inlet = Inlet::new(file);
    let found = match find_master(alloc, cut, &mut inlet) {
        Ok(found) => found,
        Err(StreamFault::Memory) => return Err(CommandFault::Call(Fault::Memory)),
        Err(_) => return Err(CommandFault::ReadFailed),
    };
    if !reads_to_end(&mut inlet) {
        return Err(CommandFault::ReadFailed);
    }
    Ok(found)
}
