//! Reads a master's file and compares it with a mix.

ghost use Rattle.std.specs.Prelude.{◌≡◌, ◌≤◌, ℕ, List, IfErr, IfOk};
ghost use Rattle.null_core.specs.Asking.{IsFullScale};
ghost use Rattle.null_core.specs.Candidates.{HoldsCandidate, IsHeardOf};
ghost use Rattle.null_core.specs.Files.{IsReadIn, IsReadLeft};
ghost use Rattle.null_commands.specs.Masters.{ReadsMaster, ReadsSome, TestsMaster};
ghost use Rattle.null_commands.specs.Sources.{IsUnread};

use crate::fault::{TestFault, unread_by};
use crate::tested::Tested;
use chunk_core::Inlet;
use folder_core::{Folder, Work, reads_to_end};
use form_core::ReadFault;
use null_core::{Candidate, Mixed, Watch, judge_candidate, read_master};
use request_core::Fault;
use std::alloc::Global;
use std::cell::Cell;
use std::io::Read;

// A folder that shows how far a null test has come, once for each per cent.
#[derive(Drop)]
struct WorkShown<'a, F> {
    folder: &'a F,
    // The per cent that was shown last.
    shown: Cell<usize>,
}

impl<F: Folder> Watch for WorkShown<'_, F> {
    fn tell(&self, done: usize, all: usize) {
        let percent = done.saturating_mul(100).checked_div(all).unwrap_or(0);
        if percent != self.shown.get() {
            self.shown.set(percent);
            self.folder.show_work(percent, 100);
        }
    }
}

/// Reads a master's file to its end, once, and compares it with a mix. The folder shows how far it has been compared.
///
/// Refusals: `ReadFailed` if it can't be opened, a read fails, or it isn't at its end after `2^40` reads; `Memory`.
pub(crate) fn test_master<F: Folder>(
    alloc: Global,
    folder: &mut F,
    mixed: &Mixed,
    name: &str,
) -> Result<Tested, TestFault>
    ensures same { F.view folder.new ≡ F.view folder.old }
    ensures tested { IfOk result (TestsMaster (F.view folder.old) mixed.now name.now) }
    ensures fault { IfErr result IsUnread }
{
    let found = read_named(alloc, folder, mixed, name)?;
    test_found(alloc, folder, mixed, &found)
}

// What the master's file of this name holds, or its first fault.
fn read_named<'a, F: Folder>(
    alloc: Global,
    folder: &mut F,
    mixed: &'a Mixed,
    name: &str,
) -> Result<Result<Candidate<'a>, ReadFault>, TestFault>
    ensures same { F.view folder.new ≡ F.view folder.old }
    ensures found { IfOk result (ReadsMaster (F.view folder.old) mixed.now name.now) }
    ensures fault { IfErr result IsUnread }
{
    match folder.open(name) {
        Ok(file) => read_opened(alloc, mixed, &mut Inlet::new(file)),
        Err(_) => Err(TestFault::ReadFailed),
    }
}

// The same for the file that an inlet has.
fn read_opened<'a, R: Read>(
    alloc: Global,
    mixed: &'a Mixed,
    inlet: &mut Inlet<R>,
) -> Result<Result<Candidate<'a>, ReadFault>, TestFault>
    ensures found { IfOk result (IsReadLeft (HoldsCandidate mixed.now) R.remaining inlet.old) }
    // If the reader's bytes aren't known, it was read of some bytes.
    ensures any_reader { IfOk result (ReadsSome mixed.now) }
    ensures fault { IfErr result IsUnread }
{
    match read_master(alloc, mixed, inlet) {
        Ok(found) => kept_if(reads_to_end(inlet), found),
        Err(fault) => Err(unread_by(fault)),
    }
}

// What was read of a file, if it was read to its end.
fn kept_if<'a>(
    is_at_end: bool,
    found: Result<Candidate<'a>, ReadFault>,
) -> Result<Result<Candidate<'a>, ReadFault>, TestFault>
    ensures found { IfOk result (λ kept. kept ≡ found.entry) }
    ensures fault { IfErr result IsUnread }
{
    if is_at_end {
        Ok(found)
    } else {
        Err(TestFault::ReadFailed)
    }
}

// Compares a master with a mix by what its file holds. If that is no recording, its first fault is returned.
fn test_found<F: Folder>(
    alloc: Global,
    folder: &mut F,
    mixed: &Mixed,
    found: &Result<Candidate<'_>, ReadFault>,
) -> Result<Tested, TestFault>
    ensures same { F.view folder.new ≡ F.view folder.old }
    ensures heard { (file : List ℕ) → IsReadIn (HoldsCandidate mixed.now) file found.now
        → IfOk result (λ tested. IsReadIn (IsHeardOf mixed.now) file tested.heard) }
    ensures scale { IfOk result (λ tested. IsFullScale (mixed.now).mix tested.full) }
    ensures fault { IfErr result IsUnread }
{
    let full = mixed.full_scale();
    match found {
        Ok(candidate) => test_candidate(alloc, folder, mixed, candidate, full),
        Err(fault) => Ok(Tested {
            heard: Err(*fault),
            full,
        }),
    }
}

// The same of a recording. The folder shows how far it has been compared.
fn test_candidate<F: Folder>(
    alloc: Global,
    folder: &mut F,
    mixed: &Mixed,
    candidate: &Candidate<'_>,
    full: u64,
) -> Result<Tested, TestFault>
    requires { 1 ≤ full }
    ensures same { F.view folder.new ≡ F.view folder.old }
    ensures heard { (file : List ℕ) → HoldsCandidate mixed.now file candidate.now
        → IfOk result (λ tested. IsReadIn (IsHeardOf mixed.now) file tested.heard) }
    ensures full { IfOk result (λ tested. tested.full ≡ full) }
    ensures fault { IfErr result IsUnread }
{
    folder.begin_work(Work::NullTest);
    let shown = Cell::new(0);
    let heard = judge_candidate(alloc, mixed, candidate, &WorkShown { folder, shown });
    folder.end_work();
    match heard {
        Ok(heard) => Ok(Tested {
            heard: Ok(heard),
            full,
        }),
        Err(_) => Err(TestFault::Call(Fault::Memory)),
    }
}
