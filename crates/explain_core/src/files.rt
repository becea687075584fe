//! Looks at files again after a fault, and says what the system says of them.

use crate::line::Line;
use chunk_core::MOST_READS;
use folder_core::{STANDARD, read_whole};
use std::alloc::Global;
use std::fs;
use std::io::{Error, ErrorKind, Read};
use std::rt::Files;

// The most bytes of a text that are read.
const MOST_TEXT: u64 = 1 << 20;

/// Why a file can't be looked at.
#[derive(Clone, Copy)]
pub(crate) enum Trouble {
    /// It is a folder.
    Folder,
    /// It is a standard stream, a pipe or a device, which may not give its bytes again.
    Stream,
    /// It can't be opened or read.
    Refused(Error),
}

impl From<Error> for Trouble {
    fn from(error: Error) -> Trouble {
        Trouble::Refused(error)
    }
}

/// Opens a file, but nothing that isn't one: opening a pipe may take forever. Returns it and how many bytes it has.
pub(crate) fn reopen<R: Files>(rt: &R, name: &str) -> Result<(R::File, u64), Trouble> {
    if name == STANDARD {
        return Err(Trouble::Stream);
    }
    let found = fs::metadata(rt, name)?;
    if found.is_dir() {
        return Err(Trouble::Folder);
    }
    if !found.is_file() {
        return Err(Trouble::Stream);
    }
    Ok((fs::open(rt, name)?, found.len()))
}

/// The bytes of a text's file.
pub(crate) fn text_of<R: Files>(rt: &R, alloc: Global, name: &str) -> Option<Vec<u8>> {
    match reopen(rt, name) {
        Ok((file, 0..=MOST_TEXT)) => read_whole(alloc, file, MOST_READS).ok(),
        _ => None,
    }
}

/// What is wrong with a file that is to be read.
pub(crate) fn trouble_of<R: Files>(rt: &R, name: &str) -> Option<Trouble> {
    match reopen(rt, name) {
        Ok((mut file, _)) => Some(Trouble::Refused(file.read(&mut [0]).err()?)),
        Err(Trouble::Stream) => None,
        Err(trouble) => Some(trouble),
    }
}

impl Line {
    /// Adds why the file of a name can't be looked at.
    pub(crate) fn explain_trouble<R: Files>(&mut self, rt: &R, name: &str, trouble: Trouble) {
        match trouble {
            Trouble::Folder => self.push("it is a folder"),
            Trouble::Stream => self.push(STREAM),
            Trouble::Refused(error) => self.explain_error(rt, name, &error),
        }
    }

    /// Adds what the system said of a file of this name, and whether its folder is missing.
    pub(crate) fn explain_error<R: Files>(&mut self, rt: &R, name: &str, error: &Error) {
        match (error.raw_os_error(), error.kind()) {
            (None, ErrorKind::WriteZero) => self.push("the system took no bytes"),
            (None, ErrorKind::ResourceBusy) => self.push(BUSY),
            _ => self.say_error(error),
        }
        let (folder, _) = name.rsplit_once('/').unwrap_or(("", name));
        let is_missing = !folder.is_empty() && fs::metadata(rt, folder).is_err();
        if is_missing && error.kind() == ErrorKind::NotFound {
            self.quote("; there is no folder ", folder, "");
        }
    }
}

const STREAM: &str = "a pipe cannot be looked at again: write it to a file first";

const BUSY: &str =
    "the command reads it, and no other file can be made in its folder: give another name";
