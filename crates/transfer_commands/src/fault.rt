//! Why a command is refused.

ghost use Rattle.std.specs.Prelude.{◌≡◌};
ghost use Rattle.transfer_commands.specs.Faults.{of_file};
ghost use Rattle.transfer_commands.specs.declared.fault.CommandFault.TheVariants as faults;

use folder_core::FileFault;
use transfer_core::Fault;

/// Why a command is refused.
#[derive(Clone, Copy)]
pub enum CommandFault {
    /// The call was refused.
    Call(Fault),
    /// A file could not be opened or read.
    ReadFailed,
    /// A file could not be created or written.
    WriteFailed,
}

impl From<Fault> for CommandFault {
    ghost from_gives = { λ fault refused. refused ≡ faults.Call fault };

    fn from(fault: Fault) -> CommandFault {
        CommandFault::Call(fault)
    }
}

impl From<FileFault> for CommandFault {
    ghost from_gives = { λ fault refused. refused ≡ of_file fault };

    fn from(fault: FileFault) -> CommandFault {
        match fault {
            FileFault::ReadFailed => CommandFault::ReadFailed,
            FileFault::WriteFailed => CommandFault::WriteFailed,
            FileFault::Memory => CommandFault::Call(Fault::Memory),
        }
    }
}
