//! Reads a mix and the takes that it names.

ghost use Rattle.std.specs.Prelude.{◌<◌, ◌≡◌, ℕ, [], ◌∷◌, ◌++◌, List, Ok, Err, IfErr, IfOk, IfSome, length, slice_index_or};
ghost use Rattle.clip_core.specs.Contents.{mix_content};
ghost use Rattle.clip_core.specs.Mixes.{MixContent};
ghost use Rattle.folder_core.specs.Files.{IsReadOf};
ghost use Rattle.mix_core.specs.Meaning.{IsMix};
ghost use Rattle.null_core.specs.Calling.{IsMixedFrom, IsNullFault, ReadsTake};
ghost use Rattle.null_commands.specs.Sources.{AreOfItsTakes, AreSourcesOf, IsTextFault, IsUnread, IsUnsourced, ReadsMix, ReadsNamed, ReadsNames, ReadsSomeTake, ReadsSources, TakesIn, fault_of_take};

use crate::fault::{TestFault, fault_of_null};
use chunk_core::Inlet;
use clip_core::Mix;
use cut_core::Excerpts;
use folder_core::{FileFault, Folder, read_file};
use form_core::ReadFault;
use mix_core::read_as_said;
use null_core::{Mixed, NullFault, read_take};
use request_core::Fault;
use sound_core::StreamFault;
use std::alloc::Global;
use std::io::Read;

/// A mix, and what it reads of the takes that it names.
#[derive(Drop)]
pub(crate) struct Sources {
    /// The mix.
    pub(crate) mix: Mix,
    /// What it reads of its takes, by their numbers, or the first fault in what their files hold.
    pub(crate) takes: Result<Vec<Excerpts>, NullFault>,
}

/// Reads the text of a mix, then the takes that it names by their numbers. Each file is read before the next is opened,
/// and of a take only the bits are kept that the mix reads. The first fault in what the takes hold is kept, and the
/// takes after it are read all the same.
///
/// Refusals: `ReadFailed` for the first file that can't be opened or read; the first fault of the text; `Memory`.
pub(crate) fn read_sources<F: Folder>(
    alloc: Global,
    folder: &mut F,
    name: &str,
) -> Result<Sources, TestFault>
    ensures same { F.view folder.new ≡ F.view folder.old }
    ensures sources { IfOk result (ReadsSources (F.view folder.old) name.now) }
    ensures fault { IfErr result (IsUnsourced (F.view folder.old) name.now) }
{
    let mix = read_mix(alloc, folder, name)?;
    let takes = read_takes(alloc, folder, &mix);
    with_takes(mix, takes)
}

// A mix with what it reads of its takes, if these were read.
fn with_takes(
    mix: Mix,
    takes: Result<Result<Vec<Excerpts>, NullFault>, TestFault>,
) -> Result<Sources, TestFault>
    ensures sources { IfOk result (λ sources. (sources.mix ≡ mix) × (takes ≡ Ok sources.takes)) }
    ensures fault { IfErr result (λ fault. takes ≡ Err fault) }
{
    match takes {
        Ok(takes) => Ok(Sources { mix, takes }),
        Err(fault) => Err(fault),
    }
}

/// A mix with what it reads of its takes, or the first fault of these.
pub(crate) fn mixed_of(alloc: Global, sources: Sources) -> Result<Mixed, NullFault>
    requires { AreOfItsTakes sources }
    // Whichever text and files it was read from, it is made of these, or refused for their first fault.
    ensures mixed { (text : List ℕ) (files : List (List ℕ)) → AreSourcesOf text files sources
        → IfOk result (IsMixedFrom text files) }
    ensures fault { (text : List ℕ) (files : List (List ℕ)) → AreSourcesOf text files sources
        → IfErr result (IsNullFault text files) }
{
    let Sources { mix, takes } = sources;
    Ok(Mixed::of(alloc, mix, takes?)?)
}

// The mix of this name.
fn read_mix<F: Folder>(alloc: Global, folder: &mut F, name: &str) -> Result<Mix, TestFault>
    ensures same { F.view folder.new ≡ F.view folder.old }
    ensures mix { IfOk result (λ mix. ReadsMix (F.view folder.old) name.now (mix_content mix)) }
    ensures fault { IfErr result (IsUnsourced (F.view folder.old) name.now) }
{
    match read_file(alloc, folder, name) {
        Ok(text) => mix_of(alloc, &text),
        Err(FileFault::Memory) => Err(TestFault::Call(Fault::Memory)),
        Err(_) => Err(TestFault::ReadFailed),
    }
}

// The mix that a text states.
fn mix_of(alloc: Global, text: &[u8]) -> Result<Mix, TestFault>
    ensures says { IfOk result (λ mix. IsMix text.now (mix_content mix)) }
    ensures fault { IfErr result (IsTextFault text.now) }
{
    read_as_said();
    match mix_core::read(alloc, text) {
        Ok(mix) => Ok(mix),
        Err(fault) => Err(TestFault::Call(fault_of_null(NullFault::from(fault)))),
    }
}

// What a mix reads of the files of its takes, or their first fault.
fn read_takes<F: Folder>(
    alloc: Global,
    folder: &mut F,
    mix: &Mix,
) -> Result<Result<Vec<Excerpts>, NullFault>, TestFault>
    ensures same { F.view folder.new ≡ F.view folder.old }
    ensures takes { IfOk result (ReadsNames (F.view folder.old) (mix_content mix.now) (mix_content mix.now).takes) }
    ensures fault { IfErr result IsUnread }
{
    let mut takes = Ok(Vec::new(alloc));
    for number in 0..mix.takes.len() {
        let next = numbered_take(alloc, folder, mix, number)?;
        takes = push_take(takes, next);
    }
    Ok(takes)
}

// What was read of some takes, and of the next one after them: the first fault is kept.
fn push_take(
    takes: Result<Vec<Excerpts>, NullFault>,
    next: Result<Excerpts, NullFault>,
) -> Result<Vec<Excerpts>, NullFault>
    ensures { (mix : MixContent) (files : List (List ℕ)) (file : List ℕ) → TakesIn mix files takes
        → ReadsTake mix (length files) file next → TakesIn mix (files ++ file ∷ []) result }
{
    let mut takes = takes?;
    match takes.push(next?) {
        Ok(()) => Ok(takes),
        Err(_) => Err(NullFault::Memory),
    }
}

// What a mix reads of the file of its take of a number, or the file's fault.
fn numbered_take<F: Folder>(
    alloc: Global,
    folder: &mut F,
    mix: &Mix,
    number: usize,
) -> Result<Result<Excerpts, NullFault>, TestFault>
    requires { number < length (mix_content mix.now).takes }
    ensures same { F.view folder.new ≡ F.view folder.old }
    ensures take { IfOk result (ReadsNamed (F.view folder.old) (mix_content mix.now) number
        (slice_index_or (mix_content mix.now).takes number [])) }
    ensures fault { IfErr result IsUnread }
{
    let name = &mix.takes[number];
    match folder.open(name) {
        Ok(file) => opened_take(alloc, mix, number, file),
        Err(_) => Err(TestFault::ReadFailed),
    }
}

// What a mix reads of the file that a reader has, its take of a number, or the file's fault.
fn opened_take<R: Read + Drop>(
    alloc: Global,
    mix: &Mix,
    number: usize,
    file: R,
) -> Result<Result<Excerpts, NullFault>, TestFault>
    ensures take { IfOk result (λ found. IfSome (R.remaining file) (λ left. ReadsTake (mix_content mix.now) number left found)) }
    // If the reader's bytes aren't known, it was read of some bytes.
    ensures any_reader { IfOk result (ReadsSomeTake (mix_content mix.now) number) }
    ensures fault { IfErr result IsUnread }
{
    let found = read_take(alloc, mix, number, &mut Inlet::new(file));
    match found {
        Ok(Ok(take)) => Ok(Ok(take)),
        Ok(Err(fault)) => Ok(Err(take_unread(number, fault))),
        Err(StreamFault::Memory) => Err(TestFault::Call(Fault::Memory)),
        Err(_) => Err(TestFault::ReadFailed),
    }
}

// The fault of the file of the take of a number.
fn take_unread(number: usize, fault: ReadFault) -> NullFault
    ensures { result ≡ fault_of_take number fault }
{
    match fault {
        ReadFault::Memory => NullFault::Memory,
        fault => NullFault::TakeUnread(number, fault),
    }
}
