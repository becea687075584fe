//! Why a file is not read or written whole.

use std::fmt;
use thiserror::Error;

/// Why a file is not read or written whole. A fault's text is its name.
#[derive(Clone, Copy, Debug, PartialEq, Eq, Error)]
pub enum FileFault {
    /// The file could not be opened or read.
    ReadFailed,
    /// The file could not be created, written or kept.
    WriteFailed,
    /// Out of memory.
    Memory,
}

impl fmt::Display for FileFault {
    fn fmt<W: fmt::Write>(&self, f: &mut fmt::Formatter<W>) -> fmt::Result {
        fmt::Debug::fmt(self, f)
    }
}
