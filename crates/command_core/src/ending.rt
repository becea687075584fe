//! A fault that is returned only after all files were read.

ghost use Rattle.std.specs.Prelude.{◌≡◌, ◌⊎◌};
ghost use Rattle.folder_core.specs.Files.{Opens};
ghost use Rattle.transfer_commands.specs.declared.fault.CommandFault.TheVariants as faults;

use archive_core::Fault;
use folder_core::{Folder, reads_through};
use transfer_commands::CommandFault;

/// A fault of the call, which is returned only if a master and its certificate can be read. Both are read to their
/// ends.
pub(crate) fn fault_after<F: Folder>(
    folder: &mut F,
    master: &str,
    cert: &str,
    fault: Fault,
) -> CommandFault
    ensures same { F.view folder.new ≡ F.view folder.old }
    ensures fault { (result ≡ faults.ReadFailed) ⊎ (result ≡ faults.Call fault) }
    ensures opened { result ≡ faults.Call fault → Opens (F.view folder.old) master.now × Opens (F.view folder.old) cert.now }
{
    if reads_through(folder, master) && reads_through(folder, cert) {
        CommandFault::Call(fault)
    } else {
        CommandFault::ReadFailed
    }
}
