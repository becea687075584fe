//! Where new files of the operating system go.

ghost use Rattle.std.specs.Prelude.{◌≡◌, None, IfOk};
ghost use Rattle.folder_core.specs.DiskFiles.{failure_of};

use crate::disk_file::DiskFile;
use crate::leftovers::{MOST_ADDED_BYTES, create_beside, folder_of, name_of, remove_abandoned};
use crate::opened::{FileId, Opened, STANDARD};
use std::fs::{Metadata, OpenFile, OpenOptions};
use std::io::{Error, ErrorKind, Printer};
use std::os::fd::AsFd;
use std::os::unix::fs::MetadataExt;
use std::path::PathBuf;
use std::rt::Files;
use std::{fs, io};

// How many links are followed at most; Linux follows as many.
const MOST_LINKS: u32 = 40;

// Where the file of a name goes.
#[derive(Drop)]
pub(crate) enum Place {
    // To a path, with each link followed, after it was written in the same folder. The text has room for its path
    // there.
    Path(PathBuf, String),
    // To the file itself: it isn't a file of a folder, or the system doesn't say what it is.
    AsItStands,
}

impl Place {
    // The place of a name, with all memory that is needed to create its file. It fails only if memory runs out.
    pub(crate) fn of<R: Files + AllocGlobal>(rt: &R, name: &str) -> io::Result<Place> {
        if name == STANDARD {
            return Ok(Place::AsItStands);
        }
        match path_of(rt, name) {
            Ok(path) => {
                let room = path.as_str().len().saturating_add(MOST_ADDED_BYTES);
                let leftover = String::with_capacity(rt.alloc(), room)?;
                Ok(Place::Path(path, leftover))
            }
            Err(error) if error.kind() == ErrorKind::OutOfMemory => Err(error),
            Err(_) => Ok(Place::AsItStands),
        }
    }

    // A new file in the folder of the one of this name, or that one itself if none can be made there.
    pub(crate) fn create<'a, R: Files + Print>(
        self,
        rt: &'a R,
        name: &str,
        process: u32,
        opened: &Opened,
    ) -> io::Result<DiskFile<R::File, Printer<'a, R>>>
    where
        R::File: AsFd,
        ensures fresh { IfOk result (λ file. failure_of file ≡ None) }
    {
        match self {
            Place::Path(path, leftover) => {
                create_at(rt, TargetPath::at(rt, path)?, leftover, process, opened)
            }
            Place::AsItStands => as_it_holds(rt, name, opened),
        }
    }

    // Whether files that are new in both places would be one.
    pub(crate) fn is_same<R: Files>(&self, rt: &R, other: &Place) -> bool {
        match (self, other) {
            (Place::Path(path, _), Place::Path(other, _)) => {
                is_one_path(rt, path.as_str(), other.as_str())
            }
            _ => false,
        }
    }
}

// Whether paths are those of one name in one folder.
fn is_one_path<R: Files>(rt: &R, path: &str, other: &str) -> bool {
    let folder = FileId::at(rt, folder_of(path));
    let is_one_folder = folder.is_some() && folder == FileId::at(rt, folder_of(other));
    is_one_folder && name_of(path) == name_of(other)
}

/// The error for a file that may not be written, since the command reads it, or writes it as its other file.
pub(crate) fn refused() -> Error {
    Error::from(ErrorKind::ResourceBusy)
}

fn create_at<'a, R: Files + Print>(
    rt: &'a R,
    target: TargetPath,
    mut leftover: String,
    process: u32,
    opened: &Opened,
) -> io::Result<DiskFile<R::File, Printer<'a, R>>>
where
    R::File: AsFd,
    ensures { IfOk result (λ file. failure_of file ≡ None) }
{
    target.check_writable(rt)?;
    remove_abandoned(rt, target.path(), &mut leftover);
    match create_beside(rt, target.path(), target.old(), process, &mut leftover) {
        Ok(file) => Ok(DiskFile::beside(file, leftover, target)),
        Err(error) if is_refused_beside(&error) => as_it_holds(rt, target.path(), opened),
        Err(error) => Err(error),
    }
}

// A file that is written directly, and stays as it is until then: standard output itself, whatever its name, or any
// other file that isn't read.
fn as_it_holds<'a, R: Files + Print>(
    rt: &'a R,
    path: &str,
    opened: &Opened,
) -> io::Result<DiskFile<R::File, Printer<'a, R>>>
    ensures { IfOk result (λ file. failure_of file ≡ None) }
{
    if opened.is_output(rt, path) {
        if opened.is_output_source(rt) {
            return Err(refused());
        }
        return Ok(DiskFile::output(io::writer(rt)));
    }
    let file = OpenOptions::new().write(true).create(true).open(rt, path)?;
    let found = file.metadata()?;
    if opened.is_source(&found) {
        return Err(refused());
    }
    Ok(DiskFile::in_place(file, found.is_file()))
}

// Where a file will go, and what is known of the one that is there.
#[derive(Drop)]
pub(crate) struct TargetPath {
    path: PathBuf,
    old: Option<Metadata>,
}

impl TargetPath {
    fn at<R: Files>(rt: &R, path: PathBuf) -> io::Result<TargetPath> {
        match fs::symlink_metadata(rt, path.as_str()) {
            Ok(found) => Ok(TargetPath {
                path,
                old: Some(found),
            }),
            Err(error) if error.kind() == ErrorKind::NotFound => Ok(TargetPath { path, old: None }),
            Err(error) => Err(error),
        }
    }

    pub(crate) fn path(&self) -> &str {
        self.path.as_str()
    }

    // What is known of the file that is there.
    fn old(&self) -> Option<&Metadata> {
        self.old.as_ref()
    }

    // Whether a file is there.
    pub(crate) fn is_there(&self) -> bool {
        self.old.is_some()
    }

    // The folder of the file.
    pub(crate) fn folder(&self) -> &str {
        folder_of(self.path())
    }

    // Fails if a file is there that may not be written.
    fn check_writable<R: Files>(&self, rt: &R) -> io::Result<()> {
        if self.is_there() {
            OpenOptions::new().write(true).open(rt, self.path())?;
        }
        Ok(())
    }
}

// Whether the error says that no file may be made in a folder. The file there may still be written directly.
fn is_refused_beside(error: &Error) -> bool {
    matches!(
        error.kind(),
        ErrorKind::PermissionDenied | ErrorKind::ReadOnlyFilesystem | ErrorKind::InvalidFilename
    )
}

// Where a file of this name goes, with each link followed. It fails if memory runs out, and if the file has to be
// written directly because of what it is, or because the system doesn't say what it is.
fn path_of<R: Files + AllocGlobal>(rt: &R, name: &str) -> io::Result<PathBuf> {
    let mut path = PathBuf::from_str(rt.alloc(), name)?;
    for _ in 0..=MOST_LINKS {
        match fs::symlink_metadata(rt, path.as_str()) {
            Ok(found) if found.is_symlink() => follow(rt, &mut path, &found)?,
            Ok(found) if found.is_file() => return Ok(path),
            Err(error) if error.kind() == ErrorKind::NotFound && is_name(path.as_str()) => {
                return Ok(path);
            }
            Ok(_) => break,
            Err(error) => return Err(error),
        }
    }
    Err(Error::from(ErrorKind::Unsupported))
}

// Whether a path ends in a name.
fn is_name(path: &str) -> bool {
    !path.is_empty() && !path.ends_with('/')
}

// Replaces a link by what it names. A link of the system's own, under `/proc`, is an open file, whatever it names, and
// is refused.
fn follow<R: Files + AllocGlobal>(rt: &R, path: &mut PathBuf, link: &Metadata) -> io::Result<()> {
    let is_open_file = match fs::metadata(rt, "/proc") {
        Ok(found) => found.dev() == link.dev(),
        Err(_) => false,
    };
    if is_open_file {
        return Err(Error::from(ErrorKind::Unsupported));
    }
    let named = fs::read_link(rt, path.as_str())?;
    path.pop();
    path.push(named.as_str())?;
    Ok(())
}
