//! Reads and writes whole files of a folder.

ghost use Rattle.std.specs.Prelude.{◌≡◌, ℕ, List, [], ◌∷◌, ◌++◌, IfErr, IfOk, IfSome, IsOk, IsTrue, OnErr, OnOk, is_ok, map, string_bytes};
ghost use Rattle.folder_core.specs.Files.{AreReadOf, IsEnded, IsPut, IsPutInPart, IsReadFault, IsReadOf, KeepsOthers};
ghost use Rattle.folder_core.specs.declared.fault.FileFault.TheVariants as faults;

use crate::fault::FileFault;
use crate::folder::Folder;
use chunk_core::{FusedInlet, MOST_READS, Outlet};
use std::alloc::Global;
use std::io::Read;

/// The bytes of a file, opened and read to its end.
///
/// Refusals: `ReadFailed` if it can't be opened, a read fails, or it isn't at its end after `2^40` reads; `Memory`.
pub fn read_file<F: Folder>(alloc: Global, folder: &mut F, name: &str) -> Result<Vec<u8>, FileFault>
    ensures same { F.view folder.new ≡ F.view folder.old }
    ensures bytes { IfOk result (λ bytes. IsReadOf (F.view folder.old) name.now bytes.items) }
    ensures fault { IfErr result IsReadFault }
{
    match folder.open(name) {
        Ok(file) => read_whole(alloc, file, MOST_READS),
        Err(_) => Err(FileFault::ReadFailed),
    }
}

/// The bytes of the files of these names, each opened and read to its end before the next is opened.
///
/// Refusals: those of [`read_file`], for the first file that isn't read.
pub fn read_files<F: Folder>(
    alloc: Global,
    folder: &mut F,
    names: &[String],
) -> Result<Vec<Vec<u8>>, FileFault>
    ensures same { F.view folder.new ≡ F.view folder.old }
    ensures bytes { IfOk result (λ files. AreReadOf (F.view folder.old)
        (map string_bytes names.now) (map (λ file. file.items) files.items)) }
    ensures fault { IfErr result IsReadFault }
{
    let mut files = Vec::new(alloc);
    for name in names {
        push_file(alloc, folder, name, &mut files)?;
    }
    Ok(files)
}

// Reads one more file.
fn push_file<F: Folder>(
    alloc: Global,
    folder: &mut F,
    name: &str,
    files: &mut Vec<Vec<u8>>,
) -> Result<(), FileFault>
    ensures same { F.view folder.new ≡ F.view folder.old }
    ensures bytes { OnOk result ((file : List ℕ) × IsReadOf (F.view folder.old) name.now file
        × (map (λ file. file.items) files.new.items ≡ map (λ file. file.items) files.old.items ++ file ∷ [])) }
    ensures fault { IfErr result IsReadFault }
{
    let file = read_file(alloc, folder, name)?;
    match files.push(file) {
        Ok(()) => Ok(()),
        Err(_) => Err(FileFault::Memory),
    }
}

/// The bytes that a reader has left, read to its end.
///
/// Refusals: `ReadFailed` if a read fails, or `most` reads don't reach the end; `Memory`.
pub fn read_whole<R: Read + Drop>(alloc: Global, reader: R, most: u64) -> Result<Vec<u8>, FileFault>
    ensures bytes { IfOk result (λ bytes. IfSome (R.remaining reader) (λ left. bytes.items ≡ left)) }
    ensures fault { IfErr result IsReadFault }
{
    let mut reader = FusedInlet::new(reader, most);
    let mut bytes = Vec::new(alloc);
    match reader.read_to_end(&mut bytes) {
        Ok(_) => Ok(bytes),
        Err(_) if reader.has_failed() => Err(FileFault::ReadFailed),
        Err(_) => Err(FileFault::Memory),
    }
}

/// Creates a file, writes these bytes to it and keeps it, or gives it up if a write failed.
///
/// Refusal: `WriteFailed` if it can't be created, written or kept. It may hold a prefix of the bytes then, but never
/// replaces an old file if the folder keeps old files.
pub fn write_file<F: Folder>(folder: &mut F, name: &str, bytes: &[u8]) -> Result<(), FileFault>
    ensures others { KeepsOthers name.now (F.view folder.old) (F.view folder.new) }
    ensures bytes { OnOk result (IsPut (F.view folder.new) name.now bytes.now) }
    ensures refused { OnErr result (IsPutInPart name.now (F.view folder.old) (F.view folder.new) bytes.now) }
    ensures fault { IfErr result (λ fault. fault ≡ faults.WriteFailed) }
{
    let Ok(file) = folder.create(name) else {
        return Err(FileFault::WriteFailed);
    };
    let mut outlet = Outlet::new(file);
    let written = outlet.put_all(bytes);
    hand_back(folder, name, &written, outlet.into_inner())
}

/// Ends a created file: keeps it if it was written to the end, or else gives it up.
///
/// Refusal: `WriteFailed` if writing it failed, or the file can't be kept.
pub fn hand_back<F: Folder, T, E>(
    folder: &mut F,
    name: &str,
    written: &Result<T, E>,
    made: F::Out,
) -> Result<(), FileFault>
    ensures others { KeepsOthers name.now (F.view folder.old) (F.view folder.new) }
    ensures whole { OnOk result (IsOk written.now) }
    ensures bytes { OnOk result (IsTrue (F.view folder.old).is_known
        → (F.view folder.new).file name.now ≡ F.Out.contents made) }
    ensures refused { OnErr result (IsEnded name.now (F.view folder.old) (F.view folder.new) (is_ok written.now)
        (F.Out.contents made)) }
    ensures fault { IfErr result (λ fault. fault ≡ faults.WriteFailed) }
{
    if written.is_err() {
        folder.give_up(name, made);
        return Err(FileFault::WriteFailed);
    }
    match folder.keep(name, made) {
        Ok(()) => Ok(()),
        Err(_) => Err(FileFault::WriteFailed),
    }
}
