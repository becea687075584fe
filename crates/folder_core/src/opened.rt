//! What the process has open: its standard output and the files that it reads.

ghost use Rattle.std.specs.Prelude.{◌≡◌};
ghost use Rattle.folder_core.specs.Protecting.{is_among, protected_files};

use std::alloc::AllocError;
use std::fs;
use std::fs::Metadata;
use std::os::unix::fs::{FileTypeExt, MetadataExt};
use std::rt::Files;

/// The name of standard input when a file is read, and of standard output when one is written.
pub const STANDARD: &str = "-";

const INPUT: &str = "/proc/self/fd/0";

const OUTPUT: &str = "/proc/self/fd/1";

const ERROR: &str = "/proc/self/fd/2";

const NULL: &str = "/dev/null";

/// Which file something is, whatever its name.
#[derive(Clone, Copy, PartialEq, Eq)]
pub(crate) struct FileId {
    device: u64,
    inode: u64,
}

impl FileId {
    fn of(found: &Metadata) -> FileId {
        FileId {
            device: found.dev(),
            inode: found.ino(),
        }
    }

    /// The file of a path, with each link followed; none if the system doesn't say.
    pub(crate) fn at<R: Files>(rt: &R, path: &str) -> Option<FileId> {
        let found = fs::metadata(rt, path).ok()?;
        Some(FileId::of(&found))
    }
}

/// What the process has open.
#[derive(Drop)]
pub(crate) struct Opened {
    // Standard output; none if it is the null device, or the system doesn't say.
    output: Option<FileId>,
    // The null device; none if the system doesn't say.
    null: Option<FileId>,
    // Whether standard output is the null device.
    is_null: bool,
    // Whether standard error is the same file as standard output.
    is_shared: bool,
    // The files and pipes that were opened to be read.
    sources: Vec<FileId>,
    // How many of them, from the first on, may not be replaced.
    protected: usize,
    // The file that was put in its place last.
    kept: Option<FileId>,
}

impl Opened {
    /// What is open when the process begins.
    pub(crate) fn new<R: Files + AllocGlobal>(rt: &R) -> Opened {
        let output = FileId::at(rt, OUTPUT);
        let null = FileId::at(rt, NULL);
        let is_null = output.is_some() && output == null;
        Opened {
            output: if is_null { None } else { output },
            null,
            is_null,
            is_shared: output.is_some() && output == FileId::at(rt, ERROR),
            sources: Vec::new(rt.alloc()),
            protected: 0,
            kept: None,
        }
    }

    /// Whether standard output is the null device.
    pub(crate) fn is_null(&self) -> bool {
        self.is_null
    }

    /// Whether standard error is the same file as standard output.
    pub(crate) fn is_shared(&self) -> bool {
        self.is_shared
    }

    /// Whether a name is that of standard output, under whatever path.
    pub(crate) fn is_output<R: Files>(&self, rt: &R, name: &str) -> bool {
        name == STANDARD || (self.output.is_some() && self.output == FileId::at(rt, name))
    }

    /// The file of a name that is to be written, with each link followed. None if there is none, if it is the null
    /// device, or if the system doesn't say.
    pub(crate) fn file_at<R: Files>(&self, rt: &R, name: &str) -> Option<FileId> {
        if name == STANDARD {
            return self.output;
        }
        let file = FileId::at(rt, name);
        if file == self.null { None } else { file }
    }

    /// Remembers a file that is read.
    pub(crate) fn add_source(&mut self, found: &Metadata) -> Result<(), AllocError> {
        let file = FileId::of(found);
        let is_kept = keeps_bytes(found) || found.file_type().is_fifo();
        if is_kept && !self.sources.contains(&file) {
            self.sources.push(file)?;
        }
        Ok(())
    }

    /// Remembers standard input as a file that is read.
    pub(crate) fn add_input<R: Files>(&mut self, rt: &R) -> Result<(), AllocError> {
        match fs::metadata(rt, INPUT) {
            Ok(found) => self.add_source(&found),
            Err(_) => Ok(()),
        }
    }

    /// From now on no file that was opened to be read so far may be replaced.
    pub(crate) fn protect(&mut self)
        ensures { protected_files self.new ≡ self.old.sources.items }
    {
        self.protected = self.sources.len();
    }

    /// Remembers that the file of a name was put in its place.
    pub(crate) fn add_kept<R: Files>(&mut self, rt: &R, name: &str) {
        self.kept = self.file_at(rt, name);
    }

    /// Whether a name is that of a file that may not be replaced, or was put in its place before.
    pub(crate) fn is_protected<R: Files>(&self, rt: &R, name: &str) -> bool {
        match self.file_at(rt, name) {
            Some(file) => self.protects(file) || self.kept == Some(file),
            None => false,
        }
    }

    // Whether a file may not be replaced.
    fn protects(&self, file: FileId) -> bool
        ensures { result ≡ is_among file (protected_files self.now) }
    {
        match self.sources.get(..self.protected) {
            Some(files) => files.contains(&file),
            None => self.sources.contains(&file),
        }
    }

    /// Whether a file was opened to be read, and a write changes what it holds.
    pub(crate) fn is_source(&self, found: &Metadata) -> bool {
        keeps_bytes(found) && self.sources.contains(&FileId::of(found))
    }

    /// Whether standard output is such a file.
    pub(crate) fn is_output_source<R: Files>(&self, rt: &R) -> bool {
        match fs::metadata(rt, OUTPUT) {
            Ok(found) => self.is_source(&found),
            Err(_) => false,
        }
    }
}

// Whether a write changes what a file holds. A pipe, for instance, only passes it on.
fn keeps_bytes(found: &Metadata) -> bool {
    found.is_file() || found.file_type().is_block_device()
}
