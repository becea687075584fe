//! The null test of files of a folder.

ghost use Rattle.std.specs.Prelude.{◌≡◌, ◌⊎◌};
ghost use Rattle.folder_core.specs.Files.{Opens};
ghost use Rattle.null_commands.specs.declared.fault.TestFault.TheVariants as faults;
ghost use Rattle.null_commands.specs.Faults.{fault_of_null};
ghost use Rattle.null_commands.specs.Testing.{TestComesTo, TestsMixed};

use crate::fault::{TestFault, fault_of_null};
use crate::masters::test_master;
use crate::sources::{mixed_of, read_sources};
use crate::tested::Tested;
use folder_core::{Folder, reads_through};
use mix_core::one_mix;
use null_core::{Mixed, NullFault};
use std::alloc::Global;

/// Compares a master with a mix: how large the residual is at most that can be heard of it.
///
/// The mix is opened first, then the takes that it names by their numbers, then the master. Each is read once, before the
/// next is opened, and to its end; of a take that holds no recording, only up to where that is sure. A fault of the mix
/// text is returned at once. One in what the takes hold, or a reason against the master, is returned only after all were
/// read. Of the takes only the bits are held that clips and their decoders reach, of the master those that the takes
/// don't have where they are asked for. No file is written.
///
/// The folder shows how far the master has been compared.
///
/// Refusals: `ReadFailed` for the first file that can't be opened or read, or isn't at its end after `2^40` reads; `Call`
/// with the faults of [`null_core::null_test`] in their order, as [`fault_of_null`] names them.
pub fn null_test_files<F: Folder>(
    alloc: Global,
    folder: &mut F,
    mix: &str,
    master: &str,
) -> Result<Tested, TestFault>
    ensures { TestComesTo mix.now master.now (F.view folder.old) (F.view folder.new) result }
{
    one_mix();
    let sources = read_sources(alloc, folder, mix)?;
    let mixed = mixed_of(alloc, sources);
    test_mixed(alloc, folder, &mixed, master)
}

// Compares a master with a mix. If the mix and its takes have a fault, the master is read and the fault returned.
fn test_mixed<F: Folder>(
    alloc: Global,
    folder: &mut F,
    mixed: &Result<Mixed, NullFault>,
    master: &str,
) -> Result<Tested, TestFault>
    ensures same { F.view folder.new ≡ F.view folder.old }
    ensures tested { TestsMixed (F.view folder.old) master.now mixed.now result }
{
    match mixed {
        Ok(mixed) => test_master(alloc, folder, mixed, master),
        Err(fault) => Err(fault_after(folder, master, *fault)),
    }
}

// A fault of the mix and its takes, which is returned only if the master can be read. It is read to its end.
fn fault_after<F: Folder>(folder: &mut F, master: &str, fault: NullFault) -> TestFault
    ensures same { F.view folder.new ≡ F.view folder.old }
    ensures fault { (result ≡ faults.ReadFailed) ⊎ (result ≡ faults.Call (fault_of_null fault)) }
    ensures opened { result ≡ faults.Call (fault_of_null fault) → Opens (F.view folder.old) master.now }
{
    let is_read = reads_through(folder, master);
    if is_read {
        TestFault::Call(fault_of_null(fault))
    } else {
        TestFault::ReadFailed
    }
}
