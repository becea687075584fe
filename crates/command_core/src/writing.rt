//! Writes the files of a planned master. Each is created only when it is written.

ghost use Rattle.std.specs.Prelude.{◌≡◌, ◌-◌, ◌<◌, ◌^◌, [], IfErr, IfOk, IsTrue, List, OnErr, OnOk, Some, ℕ};
ghost use Rattle.archive_core.specs.Planning.{IsFileOf, IsPlanned, IsSamePlan};
ghost use Rattle.command_core.specs.Writing.{CertifiesPrefix, CertifiesWhole};
ghost use Rattle.chunk_core.specs.Outlets.{outlet_failures, outlet_writer};
ghost use Rattle.master_core.specs.Certifying.{AppendsCert, AppendsCertPrefix};
ghost use Rattle.folder_core.specs.Files.{IsPut, IsPutInPart, KeepsOthers};
ghost use Rattle.folder_core.specs.declared.fault.FileFault.TheVariants as faults;

use crate::sources::WorkShown;
use archive_core::PlannedMaster;
use chunk_core::{Device, Outlet};
use folder_core::{FileFault, Folder, FolderFault, Work, hand_back};
use std::io::Write;

/// Creates a file, writes the planned master to it and keeps it, or gives it up if a write failed. Before that, it
/// reserves the memory to create the file of the certificate.
///
/// Refusal: `WriteFailed` if that memory can't be reserved, or the file can't be created, written or kept. It may hold
/// a prefix of the master then, but never replaces an old file if the folder keeps old files.
pub(crate) fn write_master<F: Folder>(
    folder: &mut F,
    planned: &mut PlannedMaster,
    name: &str,
    cert: &str,
) -> Result<(), FileFault>
    requires { IsPlanned planned.old }
    ensures planned { IsPlanned planned.new }
    ensures same { IsSamePlan planned.old planned.new }
    ensures others { KeepsOthers name.now (F.view folder.old) (F.view folder.new) }
    ensures bytes { (file : List ℕ) → IsFileOf planned.old file
        → OnOk result (IsPut (F.view folder.new) name.now file) }
    ensures refused { (file : List ℕ) → IsFileOf planned.old file
        → OnErr result (IsPutInPart name.now (F.view folder.old) (F.view folder.new) file) }
    ensures fault { IfErr result (λ fault. fault ≡ faults.WriteFailed) }
{
    let Ok(made) = create_before(folder, name, cert) else {
        return Err(FileFault::WriteFailed);
    };
    let mut outlet = Outlet::new(made);
    let written = planned.write_master(&mut outlet);
    hand_back(folder, name, &written, outlet.into_inner())
}

/// Creates a file, makes the certificate of the planned master in it and keeps it, or gives it up if a write failed.
///
/// Refusal: `WriteFailed` if it can't be created, written or kept. It may hold a prefix of a certificate then, but
/// never replaces an old file if the folder keeps old files.
pub(crate) fn write_certificate<F: Folder>(
    folder: &mut F,
    planned: PlannedMaster,
    name: &str,
) -> Result<(), FileFault>
    requires { IsPlanned planned }
    ensures others { KeepsOthers name.now (F.view folder.old) (F.view folder.new) }
    ensures bytes { OnOk result (CertifiesWhole planned name.now (F.view folder.new)) }
    ensures refused { OnErr result (CertifiesPrefix planned name.now (F.view folder.old) (F.view folder.new)) }
    ensures fault { IfErr result (λ fault. fault ≡ faults.WriteFailed) }
{
    planned.is_certifiable();
    let Ok(made) = folder.create(name) else {
        return Err(FileFault::WriteFailed);
    };
    let (written, outlet) = certify_shown(folder, planned, Outlet::new(made));
    hand_back(folder, name, &written, outlet.into_inner())
}

// Writes the certificate of the planned master to an outlet. The folder shows how far it has come.
fn certify_shown<F: Folder, W: Write>(
    folder: &mut F,
    planned: PlannedMaster,
    outlet: Outlet<W>,
) -> (Result<(), Device>, Outlet<W>)
    requires planned { IsPlanned planned }
    requires ready { outlet_failures outlet < 2 ^ 64 - 1 }
    ensures same { F.view folder.new ≡ F.view folder.old }
    ensures ok { OnOk result.0 (AppendsCert planned.cut planned.bridges (W.contents (outlet_writer outlet))
        (W.contents (outlet_writer result.1))) }
    ensures err { OnErr result.0 (AppendsCertPrefix planned.cut planned.bridges (W.contents (outlet_writer outlet))
        (W.contents (outlet_writer result.1))) }
{
    folder.begin_work(Work::Certificate);
    let came = planned.write_certificate(outlet, &WorkShown { folder });
    folder.end_work();
    came
}

// Creates a file, after it reserved the memory to create the next.
fn create_before<F: Folder>(folder: &mut F, name: &str, next: &str) -> Result<F::Out, FolderFault>
    ensures same { F.view folder.new ≡ F.view folder.old }
    ensures empty { IfOk result (λ made. IsTrue (F.view folder.old).is_known → F.Out.contents made ≡ Some []) }
{
    folder.hold(next)?;
    folder.create(name)
}
