//! Reads a file of a folder and digests its sound.

ghost use Rattle.std.specs.Prelude.{List, ℕ, IfErr, IfOk, IfSome};
ghost use Rattle.transfer_commands.specs.Outlining.{IsUnoutlinedLeft};
ghost use Rattle.transfer_commands.specs.Summing.{AreSumsIn, IsMadeOf, SumComesTo};

use crate::digesting::Digester;
use crate::fault::CommandFault;
use crate::outlining::refusal_of;
use chunk_core::Inlet;
use folder_core::Folder;
use sound_core::{Outline, read_named};
use std::alloc::{AllocError, Global};
use std::io::Read;
use transfer_core::Fault;

/// What identifies the sound of a recording, the same in each form.
#[derive(Drop)]
pub struct Sums {
    /// The sample rate, in hertz.
    pub rate: u32,
    /// How many bits each channel has.
    pub count: usize,
    /// For each channel the SHA-256 of its bits, packed eight to a byte, the earliest the most significant, with zeros
    /// in the spare bits of the last byte.
    pub digests: Vec<[u8; 32]>,
}

/// The sums of a file of a folder. It is opened once and read in one pass, a block of 65,536 bytes of its sound at a
/// time.
///
/// Refusals: `ReadFailed` if it can't be opened, a read fails, or it isn't at its end after `2^40` reads; `FileUnread`
/// with the first fault of a file that holds no recording; `Memory`.
pub fn sum_file<F: Folder>(alloc: Global, folder: &mut F, file: &str) -> Result<Sums, CommandFault>
    ensures { SumComesTo file.now (F.view folder.old) (F.view folder.new) result }
{
    match folder.open(file) {
        Ok(reader) => sum_reader(alloc, reader),
        Err(_) => Err(CommandFault::ReadFailed),
    }
}

// The sums of the file that a reader has.
fn sum_reader<R: Read + Drop>(alloc: Global, file: R) -> Result<Sums, CommandFault>
    ensures summed { IfOk result (λ sums. IfSome (R.remaining file) (λ left. AreSumsIn left sums)) }
    // If the reader's bytes aren't known, some bytes that were read have the sums.
    ensures any_reader { IfOk result (λ sums. (read : List ℕ) × AreSumsIn read sums) }
    ensures fault { IfErr result (IsUnoutlinedLeft (R.remaining file)) }
{
    let mut digester = Digester::new(alloc);
    let mut inlet = Inlet::new(file);
    let outline = match read_named(alloc, &mut inlet, &mut digester) {
        Ok(outline) => outline,
        Err(unread) => return Err(refusal_of(unread)),
    };
    match sums_of(alloc, &outline, digester) {
        Ok(sums) => Ok(sums),
        Err(_) => Err(CommandFault::Call(Fault::Memory)),
    }
}

// The sums of a file by its outline and what digested its sound.
fn sums_of(alloc: Global, outline: &Outline, digester: Digester) -> Result<Sums, AllocError>
    ensures { IfOk result (IsMadeOf outline.now digester) }
{
    let digests = digester.finish(alloc)?;
    Ok(Sums {
        rate: outline.recording.rate(),
        count: outline.sound.count,
        digests,
    })
}
