//! The folder of the operating system.

ghost use Rattle.std.specs.Prelude.{◌≡◌, None, IfOk, IfSome, IsErr, OnErr, OnOk};
ghost use Rattle.folder_core.specs.DiskFiles.{failure_of, front_of};
ghost use Rattle.folder_core.specs.Disks.{MakingFailed, CreatingFailed, IsFresh, IsRefused, MayUseOutput, NotesFailure, kept_notes, notes_of, next_step, noting_write};
ghost use Rattle.folder_core.specs.Files.{unknown_view};
ghost use Rattle.folder_core.specs.Protecting.{protected_files};
ghost use Rattle.folder_core.specs.declared.notes.Step.TheVariants.{Second};

use crate::disk_file::{DiskFile, FRONT};
use crate::disk_input::DiskInput;
use crate::folder::{Folder, FolderFault};
use crate::notes::{Failure, Notes, Step};
use crate::opened::{Opened, STANDARD};
use crate::places::{Place, refused};
use std::fs::OpenFile;
use std::io::{Input, Printer};
use std::os::fd::AsFd;
use std::rt::Files;
use std::{fs, io};

/// The files of the operating system. Their names are paths from the current folder, and nothing is known of their
/// bytes. The name `-` is standard input when a file is opened, and standard output when one is created.
///
/// A file that is created is written in the folder of its name, as `.NAME.dsdarc-PROCESS-N`. It gets its name once it
/// is kept and its bytes are on the device. Until then, and if the program is stopped, the old file stays there whole.
/// So a file that is read may be replaced, under any of its names, unless it is [protected](Folder::protect). Links are
/// followed. An old file's permissions are kept, and so are its owner and group if the system allows it. What processes
/// that no longer exist left of the same name is removed.
///
/// Some files are written directly: what isn't a regular file (a pipe, a device, an open file such as `/dev/stdout`),
/// and a file in whose folder no file can be made. Standard output is written through its own descriptor, whatever its
/// name. A file that was opened to be read is never written directly: creating it is refused.
///
/// A file is not kept if one of its writes failed. After a fault no file replaces another.
#[derive(Drop)]
pub struct Disk<'a, R: Files> {
    rt: &'a R,
    process: u32,
    opened: Opened,
    held: Option<Held>,
    notes: Notes,
    front: Option<[u8; FRONT]>,
}

// A name, and where its file goes.
#[derive(Drop)]
struct Held {
    name: String,
    place: Place,
}

impl<'a, R: Files + AllocGlobal> Disk<'a, R> {
    /// The files that this runtime reaches. `process` is the number of the process, which names the files that it
    /// leaves.
    pub fn new(rt: &'a R, process: u32) -> Self
        ensures { IsFresh (notes_of result) }
    {
        let opened = Opened::new(rt);
        let notes = Notes::new(opened.is_shared());
        Disk {
            rt,
            process,
            opened,
            held: None,
            notes,
            front: None,
        }
    }
}

impl<'a, R: Files> Disk<'a, R> {
    /// Whether a file was not opened or created because memory ran out.
    pub fn has_wanted_memory(&self) -> bool
        ensures { result ≡ (notes_of self.now).wanted_memory }
    {
        self.notes.wanted_memory
    }

    /// Whether a file that was created is standard output, under whatever name, and not the null device.
    pub fn has_used_output(&self) -> bool
        ensures { result ≡ (notes_of self.now).used_output }
    {
        self.notes.used_output
    }

    /// Whether standard error is the same file as standard output.
    pub fn is_error_output(&self) -> bool
        ensures { result ≡ (notes_of self.now).is_error_output }
    {
        self.notes.is_error_output
    }

    /// Why a file could not be created, written or put in its place, the first that could not.
    pub fn failure(&self) -> Option<Failure>
        ensures { result ≡ (notes_of self.now).failure }
    {
        self.notes.failure
    }

    /// The first bytes of the file that was kept last, if its first write took as many.
    pub fn front(&self) -> Option<[u8; FRONT]>
        ensures { result ≡ self.now.front }
    {
        self.front
    }
}

impl<'a, R: Files + Input + Print + AllocGlobal> Disk<'a, R>
where
    R::File: AsFd,
{
    fn open_source(&mut self, name: &str) -> io::Result<DiskInput<R::File, R::Reader>>
        ensures { notes_of self.new ≡ notes_of self.old }
    {
        if name == STANDARD {
            self.opened.add_input(self.rt)?;
            return Ok(DiskInput::Standard(self.rt.reader()));
        }
        let file = fs::open(self.rt, name)?;
        let found = file.metadata()?;
        self.opened.add_source(&found)?;
        Ok(DiskInput::File(file))
    }

    fn held_of(&self, name: &str) -> io::Result<Held> {
        if self.opened.is_protected(self.rt, name) {
            return Err(refused());
        }
        let place = Place::of(self.rt, name)?;
        let name = String::from_str(self.rt.alloc(), name)?;
        Ok(Held { name, place })
    }

    // The place of a name: the one that is held for it once a file was kept, or else a new one.
    fn place_of(&mut self, name: &str) -> io::Result<Place>
        ensures { notes_of self.new ≡ notes_of self.old }
    {
        let has_kept = self.notes.has_kept;
        match self
            .held
            .take_if(|held| has_kept && held.name.as_str() == name)
        {
            Some(held) => Ok(held.place),
            None => Place::of(self.rt, name),
        }
    }

    // Whether a file of this name and place is the one whose place is held for later. The null device is none.
    fn is_held(&self, name: &str, place: &Place) -> bool {
        let Some(held) = &self.held else {
            return false;
        };
        let file = self.opened.file_at(self.rt, name);
        let other = self.opened.file_at(self.rt, held.name.as_str());
        match (file, other) {
            (None, None) => place.is_same(self.rt, &held.place),
            _ => file == other,
        }
    }

    fn create_file(&mut self, name: &str) -> io::Result<DiskFile<R::File, Printer<'a, R>>>
        ensures notes { MayUseOutput (notes_of self.old) (notes_of self.new) }
        ensures fresh { IfOk result (λ file. failure_of file ≡ None) }
    {
        let place = self.place_of(name)?;
        if self.opened.is_protected(self.rt, name) || self.is_held(name, &place) {
            return Err(refused());
        }
        if !self.opened.is_null() && self.opened.is_output(self.rt, name) {
            self.notes.used_output = true;
        }
        place.create(self.rt, name, self.process, &self.opened)
    }
}

impl<'a, R: Files + Input + Print + AllocGlobal> Folder for Disk<'a, R>
where
    R::File: AsFd,
{
    type In = DiskInput<R::File, R::Reader>;

    type Out = DiskFile<R::File, Printer<'a, R>>;

    ghost view = { λ f. unknown_view };

    fn open(&mut self, name: &str) -> Result<DiskInput<R::File, R::Reader>, FolderFault>
        ensures same { OnOk result (notes_of self.new ≡ notes_of self.old) }
        ensures refused { OnErr result (IsRefused (notes_of self.old) (notes_of self.new)) }
    {
        match self.open_source(name) {
            Ok(file) => Ok(file),
            Err(error) => {
                self.notes.add_error(error);
                Err(FolderFault)
            }
        }
    }

    // Only what is a file of a folder is read again. Of a name that leads nowhere the next opening tells.
    fn reopens(&self, name: &str) -> bool {
        if name == STANDARD {
            return false;
        }
        match fs::metadata(self.rt, name) {
            Ok(found) => found.is_file(),
            Err(_) => true,
        }
    }

    fn pass(
        &self,
        file: &mut DiskInput<R::File, R::Reader>,
        buffer: &mut [u8],
    ) -> io::Result<usize> {
        file.pass(buffer)
    }

    // Files are distinguished by what the system says of them, whatever their names are.
    fn protect(&mut self)
        ensures same { notes_of self.new ≡ notes_of self.old }
        ensures protected { protected_files self.new.opened ≡ self.old.opened.sources.items }
    {
        self.opened.protect();
    }

    // It holds the place of one name at a time.
    fn hold(&mut self, name: &str) -> Result<(), FolderFault>
        ensures same { OnOk result (notes_of self.new ≡ notes_of self.old) }
        ensures failed { OnErr result (MakingFailed Second (notes_of self.old) (notes_of self.new)) }
    {
        match self.held_of(name) {
            Ok(held) => {
                self.held = Some(held);
                Ok(())
            }
            Err(error) => {
                self.notes.add_failed(Step::Second, error);
                Err(FolderFault)
            }
        }
    }

    fn create(&mut self, name: &str) -> Result<DiskFile<R::File, Printer<'a, R>>, FolderFault>
        ensures made { OnOk result (MayUseOutput (notes_of self.old) (notes_of self.new)) }
        ensures fresh { IfOk result (λ file. failure_of file ≡ None) }
        ensures failed { OnErr result (CreatingFailed (notes_of self.old) (notes_of self.new)) }
    {
        match self.create_file(name) {
            Ok(file) => Ok(file),
            Err(error) => {
                self.notes.add_failed(self.notes.step(), error);
                Err(FolderFault)
            }
        }
    }

    fn keep(
        &mut self,
        name: &str,
        out: DiskFile<R::File, Printer<'a, R>>,
    ) -> Result<(), FolderFault>
        ensures kept { OnOk result (notes_of self.new ≡ kept_notes (notes_of self.old)) }
        ensures failed { OnErr result (NotesFailure (next_step (notes_of self.old)) (notes_of self.old)
            (notes_of self.new)) }
        ensures heeded { IfSome (failure_of out.entry) (λ error. IsErr result
            × (notes_of self.new ≡ noting_write (failure_of out.entry) (notes_of self.old))) }
        ensures front { OnOk result (self.new.front ≡ front_of out.entry) }
    {
        let front = out.front();
        match out.put_in_place(self.rt) {
            Ok(()) => {
                self.front = front;
                self.opened.add_kept(self.rt, name);
                self.notes.has_kept = true;
                Ok(())
            }
            Err(error) => {
                self.notes.add_failure(self.notes.step(), error);
                Err(FolderFault)
            }
        }
    }

    // An old file stays. If there is none, the new one gets the name.
    fn give_up(&mut self, name: &str, out: DiskFile<R::File, Printer<'a, R>>)
        ensures { notes_of self.new ≡ noting_write (failure_of out.entry) (notes_of self.old) }
    {
        let _ = name;
        if let Some(error) = out.give_up(self.rt) {
            self.notes.add_failure(self.notes.step(), error);
        }
    }
}
