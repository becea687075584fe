//! The one fault of reading and writing.

use thiserror::Error;

/// A read or a write failed, or a write accepted none of the bytes that it got.
#[derive(Clone, Copy, Debug, PartialEq, Eq, Error)]
#[error("Device")]
pub struct Device;
