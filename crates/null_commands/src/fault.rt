//! Why there is no null test of files.

ghost use Rattle.std.specs.Prelude.{◌≡◌};
ghost use Rattle.null_commands.specs.Faults as specs;
ghost use Rattle.null_commands.specs.Sources.{IsUnread};

use cut_core::CutFault;
use null_core::NullFault;
use project_core::{Key, ProjectFault, Table};
use request_core::Fault;
use sound_core::StreamFault;

/// Why there is no null test of files: the first fault.
#[derive(Clone, Copy)]
pub enum TestFault {
    /// The call was refused.
    Call(Fault),
    /// A file could not be opened or read.
    ReadFailed,
}

/// A fault of the null test as a fault of a call: those of takes are those of a cut, and gains for another number of
/// channels are a fault of the mix text.
pub fn fault_of_null(fault: NullFault) -> Fault
    ensures { result ≡ specs.fault_of_null fault }
{
    match fault {
        NullFault::Mix(fault) => Fault::Mix(fault),
        NullFault::TakeNumber => Fault::Cut(CutFault::TakeNumber),
        NullFault::TakeUnread(take, fault) => Fault::Cut(CutFault::TakeUnread(take, fault)),
        NullFault::TakeMismatch(take) => Fault::Cut(CutFault::TakeMismatch(take)),
        NullFault::ClipOutside(clip) => Fault::ClipOutside(clip),
        NullFault::ClipGains(clip) => {
            Fault::Mix(ProjectFault::OutOfLimit(Key::Gains, Table::Clip(clip)))
        }
        NullFault::Memory => Fault::Memory,
    }
}

/// The fault of a file that was not read to its end.
pub(crate) fn unread_by(fault: StreamFault) -> TestFault
    ensures { IsUnread result }
{
    match fault {
        StreamFault::Memory => TestFault::Call(Fault::Memory),
        _ => TestFault::ReadFailed,
    }
}
