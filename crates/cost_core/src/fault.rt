//! Why a bridge has no window.

ghost use Rattle.std.specs.Prelude.{◌≡◌, Some};
ghost use Rattle.cost_core.specs.declared.fault.WindowFault.TheVariants.{Memory};
ghost use Rattle.cost_core.specs.Faults.{named_room};

use std::alloc::AllocError;
use std::fmt;
use thiserror::Error;

/// Which room a bridge lacks, in the order in which it is checked. A fault's text is its name.
#[derive(Clone, Copy, Debug, PartialEq, Eq, Error)]
pub enum RoomFault {
    /// The next cue starts so early in its take that the target would read bits before it.
    NoRoomBefore,
    /// The cue stops so late in its take that the target would read bits past its end.
    NoRoomAfter,
}

impl fmt::Display for RoomFault {
    fn fmt<W: fmt::Write>(&self, f: &mut fmt::Formatter<W>) -> fmt::Result {
        fmt::Debug::fmt(self, f)
    }
}

/// Why a bridge has no window, in the order in which it is checked. A fault's text is its name.
#[derive(Clone, Copy, Debug, PartialEq, Eq, Error)]
pub enum WindowFault {
    /// The next cue starts so early in its take that the target would read bits before it.
    NoRoomBefore,
    /// The cue stops so late in its take that the target would read bits past its end.
    NoRoomAfter,
    /// Out of memory.
    Memory,
}

impl fmt::Display for WindowFault {
    fn fmt<W: fmt::Write>(&self, f: &mut fmt::Formatter<W>) -> fmt::Result {
        fmt::Debug::fmt(self, f)
    }
}

impl From<RoomFault> for WindowFault {
    ghost from_gives = { λ wanting fault. named_room fault ≡ Some wanting };

    fn from(wanting: RoomFault) -> WindowFault {
        match wanting {
            RoomFault::NoRoomBefore => WindowFault::NoRoomBefore,
            RoomFault::NoRoomAfter => WindowFault::NoRoomAfter,
        }
    }
}

impl From<AllocError> for WindowFault {
    ghost from_gives = { λ _ e. e ≡ Memory };

    fn from(_e: AllocError) -> WindowFault {
        WindowFault::Memory
    }
}
