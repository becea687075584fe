//! A file of the operating system that is read.

use crate::watched_folder::KnownLength;
use std::fs::OpenFile;
use std::io;
use std::io::{Read, Seek};

/// A file of a [`Disk`](crate::Disk) that is read, or standard input.
#[derive(Drop)]
pub enum DiskInput<F, I> {
    /// A file.
    File(F),
    /// Standard input.
    Standard(I),
}

impl<F: Read, I: Read> Read for DiskInput<F, I> {
    fn read(&mut self, buffer: &mut [u8]) -> io::Result<usize> {
        match self {
            DiskInput::File(file) => file.read(buffer),
            DiskInput::Standard(input) => input.read(buffer),
        }
    }
}

impl<F: Read + Seek + OpenFile, I: Read> DiskInput<F, I> {
    ghost use Rattle.std.specs.Io.{ReadsAtMost};

    /// Moves on in the file without reading it, by as many bytes as there is room for, or up to its end. What isn't a
    /// file of a folder is read, and so is a file at its end, which may still have bytes, like those of `/proc`.
    pub(crate) fn pass(&mut self, buffer: &mut [u8]) -> io::Result<usize>
        ensures { ReadsAtMost result buffer.new }
    {
        let count = self.bytes_left().min(buffer.len() as u64) as usize;
        match self {
            DiskInput::File(file) if count > 0 => {
                file.seek_relative(count as i64)?;
                Ok(count)
            }
            _ => self.read(buffer),
        }
    }

    // How many bytes a file of a folder has left, none where that isn't known.
    fn bytes_left(&mut self) -> u64 {
        let length = self.known_length().unwrap_or(0);
        let DiskInput::File(file) = self else {
            return 0;
        };
        let place = file.stream_position().unwrap_or(length);
        length.saturating_sub(place)
    }
}

impl<F: OpenFile, I> KnownLength for DiskInput<F, I> {
    fn known_length(&self) -> Option<u64> {
        let DiskInput::File(file) = self else {
            return None;
        };
        let found = file.metadata().ok()?;
        if found.is_file() {
            Some(found.len())
        } else {
            None
        }
    }
}
