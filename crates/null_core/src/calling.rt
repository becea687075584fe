//! The null test of files in memory.

ghost use Rattle.std.specs.Prelude.{◌≡◌, ℕ, List, IfErr, IfOk};
ghost use Rattle.clip_core.specs.Contents.{mix_content};
ghost use Rattle.cut_core.specs.Opening.{file_bytes};
ghost use Rattle.null_core.specs.Calling.{Accepts, AnswersAccepted, IfAccepted, IsMixedFrom, IsNullFault, IsTakeFault, NullTests, ReadsTake, ReadsTakes};
ghost use Rattle.null_core.specs.Candidates.{HoldsCandidate, IsHeardOf};
ghost use Rattle.null_core.specs.Files.{IsReadIn};
ghost use Rattle.null_core.specs.declared.fault.NullFault.TheVariants.{Memory};

use crate::fault::NullFault;
use crate::master_reading::{Candidate, judge_candidate, read_master};
use crate::mixed::Mixed;
use crate::reading::read_take;
use crate::verdict::Heard;
use crate::watch::Unwatched;
use chunk_core::Inlet;
use clip_core::Mix;
use cut_core::Excerpts;
use form_core::ReadFault;
use sound_core::StreamFault;
use std::alloc::Global;

/// How large the residual is that can be heard of a master: how far it is, as heard, from the mix that a text states,
/// whoever made it. `takes` are the files of the takes in the order of their numbers. They and the master are DSDIFF or
/// DSF files.
///
/// A master whose file holds no recording is rejected with the file's first fault, which
/// [`read_any`](form_core::read_any) returns too. Refusals, in this order: `Mix`, `TakeNumber`, `TakeUnread` for the
/// first such take, `TakeMismatch`, then by rising clip `ClipOutside` and `ClipGains`. Whenever memory runs out it is
/// `Memory`.
pub fn null_test(
    alloc: Global,
    mix: &[u8],
    takes: &[Vec<u8>],
    master: &[u8],
) -> Result<Result<Heard, ReadFault>, NullFault>
    // The verdict is the first that applies to the mix that the text states, and what the files hold.
    ensures found { IfOk result (NullTests mix.now (file_bytes takes.now) master.now) }
    // What is accepted nulls, and this is its greatest residual.
    ensures accepted { IfAccepted result (Accepts mix.now (file_bytes takes.now) master.now) }
    // Such a master is accepted, unless memory runs out.
    ensures only { (residual : ℕ) → Accepts mix.now (file_bytes takes.now) master.now residual → AnswersAccepted result residual }
    // Which fault it is: the first of the text and the takes.
    ensures refused { IfErr result (IsNullFault mix.now (file_bytes takes.now)) }
{
    let mixed = read_mixed(alloc, mix, takes)?;
    judge_file(alloc, &mixed, master)
}

// The mix that a text states with what it reads of the files of its takes.
fn read_mixed(alloc: Global, text: &[u8], files: &[Vec<u8>]) -> Result<Mixed, NullFault>
    ensures made { IfOk result (IsMixedFrom text.now (file_bytes files.now)) }
    ensures refused { IfErr result (IsNullFault text.now (file_bytes files.now)) }
{
    let mix = mix_core::read(alloc, text)?;
    if files.len() != mix.takes.len() {
        return Err(NullFault::TakeNumber);
    }
    let takes = read_takes(alloc, &mix, files)?;
    Ok(Mixed::of(alloc, mix, takes)?)
}

// What is heard of a master's file, or its first fault. The only refusal is `Memory`.
fn judge_file(
    alloc: Global,
    mixed: &Mixed,
    file: &[u8],
) -> Result<Result<Heard, ReadFault>, NullFault>
    ensures found { IfOk result (IsReadIn (IsHeardOf mixed.now) file.now) }
    ensures memory { IfErr result (λ fault. fault ≡ Memory) }
{
    let found = read_master(alloc, mixed, &mut Inlet::new(file));
    judge_found(alloc, mixed, &found)
}

// What is heard of a master by what its file holds, or the file's first fault.
fn judge_found(
    alloc: Global,
    mixed: &Mixed,
    found: &Result<Result<Candidate<'_>, ReadFault>, StreamFault>,
) -> Result<Result<Heard, ReadFault>, NullFault>
    ensures found { (file : List ℕ) → IfOk found.now (IsReadIn (HoldsCandidate mixed.now) file) → IfOk result (IsReadIn (IsHeardOf mixed.now) file) }
    ensures memory { IfErr result (λ fault. fault ≡ Memory) }
{
    match found {
        Ok(Ok(candidate)) => match judge_candidate(alloc, mixed, candidate, &Unwatched) {
            Ok(heard) => Ok(Ok(heard)),
            Err(_) => Err(NullFault::Memory),
        },
        Ok(Err(fault)) => Ok(Err(*fault)),
        Err(_) => Err(NullFault::Memory),
    }
}

// What a mix reads of the recordings of files.
fn read_takes(alloc: Global, mix: &Mix, files: &[Vec<u8>]) -> Result<Vec<Excerpts>, NullFault>
    ensures made { IfOk result (ReadsTakes (mix_content mix.now) (file_bytes files.now)) }
    ensures fault { IfErr result (IsTakeFault (file_bytes files.now)) }
{
    let mut takes = Vec::with_capacity(alloc, files.len())?;
    for number in 0..files.len() {
        takes.push_reserved(take_of(alloc, mix, number, &files[number])?);
    }
    Ok(takes)
}

// What a mix reads of a file, the take of a number.
fn take_of(alloc: Global, mix: &Mix, number: usize, file: &[u8]) -> Result<Excerpts, NullFault>
    ensures { ReadsTake (mix_content mix.now) number file.now result }
{
    let found = read_take(alloc, mix, number, &mut Inlet::new(file));
    match found {
        Ok(Ok(take)) => Ok(take),
        Ok(Err(ReadFault::Memory)) | Err(_) => Err(NullFault::Memory),
        Ok(Err(fault)) => Err(NullFault::TakeUnread(number, fault)),
    }
}
