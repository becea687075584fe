//! A file of the operating system that is being written.

ghost use Rattle.std.specs.Prelude.{◌≡◌, None, Some, false, Err, IfOk, IfSome, OnOk, take};
ghost use Rattle.std.specs.Io.KnownBytes.{Keeps};
ghost use Rattle.std.specs.Io.{WritesAtMost};
ghost use Rattle.std.specs.Option.{option_or};
ghost use Rattle.std.specs.IoError.{error_kind};
ghost use Rattle.std.specs.declared.io.ErrorKind.TheVariants.{WriteZero};
ghost use Rattle.folder_core.specs.DiskFiles.{NotesCount, NotesFlush, NotesWrite, TakesBytes, destination_contents, direct_contents, failure_of, file_contents, front_after, front_begun, front_of};

use crate::direct::Direct;
use crate::places::TargetPath;
use std::fs::OpenFile;
use std::io::{Error, ErrorKind, Write};
use std::rt::Files;
use std::{fs, io};

/// How many of the first bytes of a file that is written are remembered.
pub const FRONT: usize = 36;

/// What is remembered of the first bytes of a file that is written.
#[derive(Clone, Copy)]
pub enum Front {
    /// Nothing was written yet.
    Empty,
    /// The first write took these, and maybe more.
    Bytes([u8; FRONT]),
    /// It took fewer.
    Short,
}

/// A file of a [`Disk`](crate::Disk) that is being written. It ends only with [`keep`](crate::Folder::keep) or
/// [`give_up`](crate::Folder::give_up).
pub struct DiskFile<F, O> {
    destination: Destination<F, O>,
    // Why the first write or flush that failed did.
    failure: Option<Error>,
    // What the first write took.
    front: Front,
}

// Where the bytes go.
#[derive(Drop)]
enum Destination<F, O> {
    // To a new file in the folder of the one that it will replace.
    Beside(F, Beside),
    // To the file itself.
    InPlace(InPlace<F>),
    // To standard output.
    Output(Direct<O>),
}

// The path of the new file, and the target that it will replace.
#[derive(Drop)]
struct Beside {
    leftover: String,
    target: TargetPath,
}

// A file that is written directly. What it held is removed at the first write, or when it is kept.
#[derive(Drop)]
struct InPlace<F> {
    file: Direct<F>,
    holds_old: bool,
}

impl<F, O> DiskFile<F, O> {
    // A file that is written directly. `holds_old` says that it still holds what it held before.
    pub(crate) fn in_place(file: F, holds_old: bool) -> Self
        ensures { failure_of result ≡ None }
    {
        let file = Direct::new(file);
        Self::to(Destination::InPlace(InPlace { file, holds_old }))
    }

    // A file that is written under another name, and then gets its own.
    pub(crate) fn beside(file: F, leftover: String, target: TargetPath) -> Self
        ensures { failure_of result ≡ None }
    {
        Self::to(Destination::Beside(file, Beside { leftover, target }))
    }

    // Standard output.
    pub(crate) fn output(output: O) -> Self
        ensures { failure_of result ≡ None }
    {
        Self::to(Destination::Output(Direct::new(output)))
    }

    fn to(destination: Destination<F, O>) -> Self
        ensures { failure_of result ≡ None }
    {
        DiskFile {
            destination,
            failure: None,
            front: Front::Empty,
        }
    }

    /// The first bytes that were written, if the first write took as many.
    pub(crate) fn front(&self) -> Option<[u8; FRONT]>
        ensures { result ≡ front_of self.now }
    {
        match self.front {
            Front::Bytes(bytes) => Some(bytes),
            _ => None,
        }
    }
}

impl<F: Write + OpenFile + Drop, O: Write + Drop> DiskFile<F, O> {
    // Gives the file its name once its bytes are on the device. If a write failed, it returns why, and removes what was
    // written under another name.
    pub(crate) fn put_in_place<R: Files>(self, rt: &R) -> io::Result<()>
        ensures heeded { IfSome (failure_of self) (λ error. result ≡ Err error) }
    {
        let DiskFile {
            destination,
            failure,
            front: _,
        } = self;
        let ended = match destination {
            Destination::Beside(file, beside) => beside.end(rt, &file, failure),
            Destination::InPlace(mut stands) => stands.end(),
            Destination::Output(mut output) => output.flush(),
        };
        match failure {
            Some(failed) => Err(failed),
            None => ended,
        }
    }

    // Gives the file its name if no other has it, or else removes what was written. Returns why a write failed.
    pub(crate) fn give_up<R: Files>(self, rt: &R) -> Option<Error>
        ensures { result ≡ failure_of self }
    {
        let DiskFile {
            destination,
            failure,
            front: _,
        } = self;
        let _ = match destination {
            Destination::Beside(file, beside) => {
                let is_there = beside.target.is_there();
                let old_stays = if is_there { Some(untaken()) } else { None };
                beside.end(rt, &file, failure.or(old_stays))
            }
            Destination::InPlace(mut stands) => stands.file.flush(),
            Destination::Output(mut output) => output.flush(),
        };
        failure
    }
}

impl Front {
    // What is remembered once a write took these bytes.
    fn after(self, taken: &[u8]) -> Front
        ensures { result ≡ front_after self taken.now }
    {
        match self {
            Front::Empty => begun_by(taken),
            other => other,
        }
    }
}

// What is remembered where the first write took these bytes.
fn begun_by(taken: &[u8]) -> Front
    ensures { result ≡ front_begun taken.now }
{
    if taken.is_empty() {
        return Front::Empty;
    }
    if taken.len() < FRONT {
        return Front::Short;
    }
    let (first, _) = taken.split_at(FRONT);
    let mut bytes = [0; FRONT];
    bytes.copy_from_slice(first);
    Front::Bytes(bytes)
}

impl<F, O> DiskFile<F, O> {
    // Remembers a write that took nothing of some bytes.
    fn remember_count(&mut self, count: usize, buf: &[u8])
        ensures notes { NotesCount count buf.now (failure_of self.old) (failure_of self.new) }
        ensures same { self.new.destination ≡ self.old.destination }
        ensures front { self.new.front ≡ self.old.front }
    {
        if count == 0 && !buf.is_empty() {
            self.remember(untaken());
        }
    }

    // Remembers why a write failed, if none did before.
    fn remember(&mut self, error: Error)
        ensures notes { failure_of self.new ≡ option_or (failure_of self.old) (Some error) }
        ensures same { self.new.destination ≡ self.old.destination }
        ensures front { self.new.front ≡ self.old.front }
    {
        self.failure = self.failure.or(Some(error));
    }
}

// The error of a write that took nothing.
fn untaken() -> Error
    ensures { error_kind result ≡ WriteZero }
{
    Error::from(ErrorKind::WriteZero)
}

impl Beside {
    // Puts what was written in the place of its target, or removes it if a write failed or it can't be put there.
    fn end<R: Files>(&self, rt: &R, file: &impl OpenFile, failure: Option<Error>) -> io::Result<()>
        ensures heeded { IfSome failure (λ error. result ≡ Err error) }
    {
        let put = match failure {
            Some(error) => Err(error),
            None => self.replace(rt, file),
        };
        if put.is_err() {
            let _ = fs::remove_file(rt, self.leftover.as_str());
        }
        put
    }

    // If the folder can be opened, the new name is on the device, too.
    fn replace<R: Files>(&self, rt: &R, file: &impl OpenFile) -> io::Result<()> {
        file.sync_data()?;
        fs::rename(rt, self.leftover.as_str(), self.target.path())?;
        if let Ok(folder) = fs::open(rt, self.target.folder()) {
            let _ = folder.sync_all();
        }
        Ok(())
    }
}

impl<F: Write + OpenFile> InPlace<F> {
    // Removes what the file held before.
    fn empty(&mut self) -> io::Result<()>
        ensures same { self.new.file ≡ self.old.file }
        ensures emptied { OnOk result (self.new.holds_old ≡ false) }
    {
        if self.holds_old {
            self.file.get_ref().set_len(0)?;
            self.holds_old = false;
        }
        Ok(())
    }

    // Writes what was held back. A file to which nothing was written becomes empty.
    fn end(&mut self) -> io::Result<()>
        ensures written { OnOk result (Keeps (direct_contents F.contents self.old.file) (F.contents self.new.file.to)) }
        ensures emptied { OnOk result (self.new.holds_old ≡ false) }
    {
        self.empty()?;
        self.file.flush()
    }
}

impl<F: Write + OpenFile, O: Write> Destination<F, O> {
    fn write(&mut self, buf: &[u8]) -> io::Result<usize>
        ensures bound { WritesAtMost result buf.now }
        ensures bytes { TakesBytes (destination_contents F.contents O.contents self.old)
            (destination_contents F.contents O.contents self.new) result buf.now }
    {
        match self {
            Destination::Beside(file, _) => file.write(buf),
            Destination::InPlace(stands) => {
                stands.empty()?;
                stands.file.write(buf)
            }
            Destination::Output(output) => output.write(buf),
        }
    }

    fn flush(&mut self) -> io::Result<()>
        ensures bytes { OnOk result (Keeps (destination_contents F.contents O.contents self.old)
            (destination_contents F.contents O.contents self.new)) }
    {
        match self {
            Destination::Beside(file, _) => file.flush(),
            Destination::InPlace(stands) => stands.file.flush(),
            Destination::Output(output) => output.flush(),
        }
    }
}

impl<F: Write + OpenFile, O: Write> Write for DiskFile<F, O> {
    fn write(&mut self, buf: &[u8]) -> io::Result<usize>
        ensures bound { WritesAtMost result buf.now }
        ensures taken { TakesBytes (file_contents F.contents O.contents self.old)
            (file_contents F.contents O.contents self.new) result buf.now }
        ensures notes { NotesWrite result buf.now (failure_of self.old) (failure_of self.new) }
        ensures front { IfOk result (λ count. self.new.front ≡ front_after self.old.front (take count buf.now)) }
    {
        match self.destination.write(buf) {
            Ok(count) => {
                self.remember_count(count, buf);
                self.front = self.front.after(&buf[..count]);
                Ok(count)
            }
            Err(error) => {
                self.remember(error);
                Err(error)
            }
        }
    }

    fn flush(&mut self) -> io::Result<()>
        ensures kept { OnOk result (Keeps (file_contents F.contents O.contents self.old)
            (file_contents F.contents O.contents self.new)) }
        ensures notes { NotesFlush result (failure_of self.old) (failure_of self.new) }
    {
        match self.destination.flush() {
            Ok(()) => Ok(()),
            Err(error) => {
                self.remember(error);
                Err(error)
            }
        }
    }
}
