//! The takes of a splice, read from their files.

ghost use Rattle.std.specs.Prelude.{◌≡◌, ℕ, ◌+◌, ◌<◌, ◌++◌, ◌∷◌, [], IfOk, List, length};
ghost use Rattle.dsd_bits.specs.Shape.{HasShape};
ghost use Rattle.splice_core.specs.Splices.{SpliceContent, splice_content};
ghost use Rattle.form_core.specs.Steps.{GivesUnless};
ghost use Rattle.cut_core.specs.Opening as specs;
ghost use Rattle.cut_core.specs.Opening.{AddsExcerpts, AddsTake, ReturnsAllExcerpts, ReturnsExcerpts, ReturnsTakes, IsOfTake, fault_of_take, file_bytes, take_from, take_in, takes_before};

use crate::excerpts::{Excerpts, take_excerpts};
use crate::fault::CutFault;
use dsd_bits::Recording;
use form_core::{Opened, ReadFault, has_shape, read_any};
use splice_core::Splice;
use std::alloc::Global;

/// What a splice reads of its takes, from their files.
///
/// Refusals, in this order: `TakeNumber` if there are not as many files as takes, `TakeUnread` for the first file that
/// can't be read. Whenever memory runs out it is `Memory`.
#[tactic(auto, unfolding(crate::specs::Opening::takes_of))]
pub fn excerpts_of_files(
    alloc: Global,
    splice: &Splice,
    files: &[Vec<u8>],
) -> Result<Vec<Excerpts>, CutFault>
    ensures { ReturnsTakes (splice_content splice.now) (file_bytes files.now) result }
{
    if files.len() != splice.takes.len() {
        return Err(CutFault::TakeNumber);
    }
    read_takes(alloc, splice, files)
}

// What a splice reads of the recordings of files.
#[tactic(auto, using(crate::proofs::Steps::takes_stop))]
fn read_takes(alloc: Global, splice: &Splice, files: &[Vec<u8>]) -> Result<Vec<Excerpts>, CutFault>
    ensures { ReturnsAllExcerpts (splice_content splice.now) result (takes_before (file_bytes files.now) (length files.now)) }
{
    let mut takes = Vec::with_capacity(alloc, files.len())?;
    for number in 0..files.len() {
        takes.push_reserved(excerpts_of_take(alloc, splice, files, number)?);
    }
    Ok(takes)
}

// What a splice reads of the file of a number.
fn excerpts_of_take(
    alloc: Global,
    splice: &Splice,
    files: &[Vec<u8>],
    number: usize,
) -> Result<Excerpts, CutFault>
    requires { number < length files.now }
    ensures { ReturnsExcerpts (splice_content splice.now) number result (take_from (file_bytes files.now) number) }
{
    excerpts_of_file(alloc, splice, number, &files[number])
}

/// What a splice reads of a file, the take of a number.
///
/// Refusals: `TakeUnread` if the file can't be read; `Memory`.
pub fn excerpts_of_file(
    alloc: Global,
    splice: &Splice,
    number: usize,
    file: &[u8],
) -> Result<Excerpts, CutFault>
    ensures excerpts { ReturnsExcerpts (splice_content splice.now) number result (take_in number file.now) }
    ensures of { IsOfTake (splice_content splice.now) number result }
{
    let recording = read_take(alloc, number, file)?;
    Ok(take_excerpts(alloc, splice, number, recording)?)
}

/// What was read of some takes, and of the next one after them: the first fault is kept.
pub fn push_excerpts(
    takes: Result<Vec<Excerpts>, CutFault>,
    next: Result<Excerpts, CutFault>,
) -> Result<Vec<Excerpts>, CutFault>
    ensures excerpts { AddsExcerpts takes next result }
    ensures of { AddsTake takes next result }
{
    let mut takes = takes?;
    match takes.push(next?) {
        Ok(()) => Ok(takes),
        Err(_) => Err(CutFault::Memory),
    }
}

// The recording of a file, the take of a number.
fn read_take(alloc: Global, number: usize, file: &[u8]) -> Result<Recording, CutFault>
    ensures exact { GivesUnless CutFault.Memory (λ r. r) result (take_in number file.now) }
    ensures shape { IfOk result HasShape }
{
    match read_any(alloc, file) {
        Ok(opened) => {
            let Opened { recording, .. } = opened;
            has_shape(&recording);
            Ok(recording)
        }
        Err(fault) => Err(unread(number, fault)),
    }
}

// The fault for the take of a number if it can't be read.
fn unread(number: usize, fault: ReadFault) -> CutFault
    ensures { result ≡ fault_of_take number fault }
{
    match fault {
        ReadFault::Memory => CutFault::Memory,
        fault => CutFault::TakeUnread(number, fault),
    }
}
