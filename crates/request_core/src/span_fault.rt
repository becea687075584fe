//! Why a part isn't found.

use std::fmt;
use thiserror::Error;

/// Why a part isn't found in a recording. A fault's text is its name.
#[derive(Clone, Copy, Debug, PartialEq, Eq, Error)]
pub enum SpanFault {
    /// A mark that is named isn't there.
    NoMark,
    /// The part begins or ends after the recording's end.
    PartOutside,
    /// The part ends before it begins.
    PartReversed,
}

impl fmt::Display for SpanFault {
    fn fmt<W: fmt::Write>(&self, f: &mut fmt::Formatter<W>) -> fmt::Result {
        fmt::Debug::fmt(self, f)
    }
}
