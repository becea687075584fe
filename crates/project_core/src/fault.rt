//! Why a project text or a mix text is not read.

ghost use Rattle.std.specs.Prelude.{◌≡◌};
ghost use Rattle.project_core.specs.declared.fault.ProjectFault.TheVariants.{Memory};

use crate::key::{Key, Table};
use fir_core::TapsFault;
use std::alloc::{AllocError, AllocFailed};
use thiserror::Error;

/// Why a project text or a mix text is not read: the first fault in the order of reading.
///
/// A fault's text is its name. If it has a key, or the number of a cue or a clip counted from 0, this follows after one
/// space. A key is spelled as in the text that was read. What else was seen is not part of the fault's text.
#[derive(Clone, Copy, Debug, PartialEq, Eq, Error)]
pub enum ProjectFault {
    /// The bytes are no TOML document.
    #[error("NotToml")]
    NotToml,
    /// This table has a key that is none of its keys.
    #[error("UnknownKey")]
    UnknownKey(Table),
    /// This table lacks this key.
    #[error("MissingKey {0}")]
    MissingKey(Key, Table),
    /// The value at this key of this table isn't of the right kind. Of a key that should be a table, it is this table.
    #[error("WrongKind {0}")]
    WrongKind(Key, Table),
    /// The value at this key of this table is outside its limits.
    #[error("OutOfLimit {0}")]
    OutOfLimit(Key, Table),
    /// A cue or a clip names a take that isn't there.
    #[error("NoTake {number}")]
    NoTake {
        /// The number of the cue or the clip.
        number: usize,
        /// The number of the take.
        take: i64,
        /// How many takes there are.
        takes: usize,
    },
    /// A cue is more than one bit shorter than the number of weights.
    #[error("ShortCue {cue}")]
    ShortCue {
        /// The number of the cue.
        cue: usize,
        /// Its first bit.
        start: usize,
        /// The place after its last bit.
        stop: usize,
        /// How many weights there are.
        weights: usize,
    },
    /// The last cue has a bridge.
    #[error("LastBridge")]
    LastBridge {
        /// The number of the cue.
        cue: usize,
        /// The length of its bridge, in bits.
        bridge: usize,
    },
    /// Out of memory.
    #[error("Memory")]
    Memory,
}

impl From<AllocError> for ProjectFault {
    ghost from_gives = { λ _ e. e ≡ Memory };

    fn from(_e: AllocError) -> ProjectFault {
        ProjectFault::Memory
    }
}

impl<T: Drop> From<AllocFailed<T>> for ProjectFault {
    ghost from_gives = { λ _ e. e ≡ Memory };

    fn from(_e: AllocFailed<T>) -> ProjectFault {
        ProjectFault::Memory
    }
}

impl From<TapsFault> for ProjectFault {
    ghost use Rattle.project_core.specs.Faults.{limit_fault};

    ghost from_gives = { λ f e. e ≡ limit_fault f };

    fn from(fault: TapsFault) -> ProjectFault {
        let key = match fault {
            TapsFault::TapNumber | TapsFault::TapSum => Key::Taps,
            TapsFault::Factor => Key::Factor,
            TapsFault::Delay => Key::Delay,
            TapsFault::Shift => Key::Shift,
            TapsFault::Width => Key::Width,
            TapsFault::Memory => return ProjectFault::Memory,
        };
        ProjectFault::OutOfLimit(key, Table::Decimate)
    }
}
