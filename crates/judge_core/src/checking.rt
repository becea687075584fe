//! Whether a file is the master of a project and takes, and its bridges are the best there are.

ghost use Rattle.std.specs.Prelude.{◌≡◌, ◌+◌, ◌-◌, ◌^◌, ◌<◌, ◌⊎◌, IfErr, IfOk, None};
ghost use Rattle.cert_core.specs.Readers.{cert_inlet, check_failures};
ghost use Rattle.cut_core.specs.Opening.{file_bytes};
ghost use Rattle.chunk_core.specs.Inlets.{inlet_failures};
ghost use Rattle.judge_core.specs.Accepting.{Accepts, AcceptsAny, AcceptsAnyLeft, AcceptsLeft, CostsIfLeft, CostsLeast, CostsWindows, ForEachHeld, OnAccepted, IfMasterAccepted, IfMasterRejected, IsLeastMaster, IsMaster, RejectsFirst, RejectsLeft, fault_of_check};
ghost use Rattle.request_core.specs.Cutting.{IsFaultOfCut};
ghost use Rattle.judge_core.specs.Finding.{IsFoundInSome};
ghost use Rattle.sound_core.specs.Faults.{failed_reads};
ghost use Rattle.request_core.specs.Faults.{as_stream};

use crate::finding::{Found, judge_found};
use crate::reading::find_master;
use crate::verdict::Verdict;
use cert_core::{CertReader, CheckFault};
use chunk_core::Inlet;
use cut_core::Cut;
use form_core::ReadFault;
use request_core::{Fault, Reason, cut_files};
use sound_core::StreamFault;
use std::alloc::Global;
use std::io::Read;

/// Whether a file is the master of a project and its takes, and a certificate shows that none of its bridges could cost
/// less, whoever wrote them. It is accepted exactly if this is so, with the total cost of the bridges of all channels.
/// No master of the project and the takes has a smaller total.
///
/// `takes` are the files of the takes in the order of their numbers, `master` a DSDIFF or DSF file, `cert` a
/// certificate. A rejection has the first reason in this order: `MasterUnread` with the file's first fault, which
/// [`read_any`](form_core::read_any) answers too, `MasterShape` (another sample rate or number of channels than the
/// takes) and `MasterLength`, each with what the master has and what is wanted, `MasterMarks` (a DSDIFF file whose marks aren't those of the
/// titles), `CuedBit` with the lowest such channel and place, `CertHead`, `Cert` with the first such entry,
/// `CertExtra`. Refusals, in this order: `Project`, `NoSplice`, `TakeNumber`, `TakeUnread`, `TakeMismatch`,
/// `CueOutside`, `MasterTooLong`, then by rising cue `NoRoomBefore` and `NoRoomAfter`. Whenever memory runs out it is
/// `Memory`.
pub fn check(
    alloc: Global,
    project: &[u8],
    takes: &[Vec<u8>],
    master: &[u8],
    cert: &[u8],
) -> Result<Verdict, Fault>
    // What is accepted is a master with a certificate of its own bits.
    ensures found { IfMasterAccepted result (Accepts project.now (file_bytes takes.now) master.now cert.now) }
    // It is a master of the project and the takes, and each of its bridges is least.
    ensures master { IfMasterAccepted result (λ _. IsMaster project.now (file_bytes takes.now) master.now) }
    ensures least { IfMasterAccepted result (λ _. IsLeastMaster project.now (file_bytes takes.now) master.now) }
    // No master of the project and the takes costs less than the reported total.
    ensures joint { IfMasterAccepted result (CostsLeast project.now (file_bytes takes.now) master.now) }
    // The reported total is the sum over all bridges of what their bits cost over their windows.
    ensures windows { IfMasterAccepted result (CostsWindows project.now (file_bytes takes.now) master.now) }
    // Such a master and certificate are accepted, unless memory runs out.
    ensures only { AcceptsAny project.now (file_bytes takes.now) master.now cert.now result }
    // Which reason it is: the first that applies.
    ensures rejected { IfMasterRejected result (RejectsFirst project.now (file_bytes takes.now) master.now cert.now) }
    // Which fault it is: the first of the project, its splice and its cut.
    ensures refused { IfErr result (IsFaultOfCut project.now (file_bytes takes.now) None) }
{
    let cut = cut_files(alloc, project, takes, None)?;
    let Ok(found) = find_master(alloc, &cut, &mut Inlet::new(master)) else {
        return Err(Fault::Memory);
    };
    let mut reader = CertReader::new(Inlet::new(cert));
    match check_found(alloc, &cut, &found, &mut reader) {
        Ok(verdict) => Ok(verdict),
        Err(_) => Err(Fault::Memory),
    }
}

/// The same verdict from a cut of project and takes, from what was found in the master's file, and from a certificate
/// that is judged while it is read, two rows of it at a time. Only an accepted certificate is read to its end. If there
/// is a reason against the master, the certificate isn't read.
///
/// Refusals: `ReadFailed` if a read fails, `Memory`.
pub fn check_found<R: Read>(
    alloc: Global,
    cut: &Cut,
    found: &Result<Found, ReadFault>,
    cert: &mut CertReader<R>,
) -> Result<Verdict, Fault>
    requires ready { inlet_failures (cert_inlet cert.old) < 2 ^ 64 - 1 }
    requires some { IsFoundInSome cut.now found.now }
    // For whichever project and files it is the cut, and in whichever file it was found, the clauses of `check` hold of
    // them and of the bytes that the reader has left, if these are known. What is accepted is a least master, whichever
    // reader it was.
    ensures found { OnAccepted cut.now found.now result (AcceptsLeft R.remaining cert.old) }
    ensures master { OnAccepted cut.now found.now result (λ project files master _. IsMaster project files master) }
    ensures least { OnAccepted cut.now found.now result (λ project files master _. IsLeastMaster project files master) }
    ensures joint { OnAccepted cut.now found.now result CostsLeast }
    ensures windows { OnAccepted cut.now found.now result (CostsIfLeft R.remaining cert.old) }
    ensures only { ForEachHeld cut.now found.now (AcceptsAnyLeft R.remaining cert.old result) }
    ensures rejected { ForEachHeld cut.now found.now (RejectsLeft R.remaining cert.old result) }
    ensures refused { IfErr result (λ fault. (fault ≡ Fault.Stream StreamFault.ReadFailed) ⊎ (fault ≡ Fault.Memory)) }
    // `ReadFailed` is returned exactly if a read failed.
    ensures failures { check_failures cert.new ≡ check_failures cert.old + failed_reads (as_stream result) }
{
    let found = match found {
        Ok(found) => found,
        Err(fault) => return Ok(Verdict::Rejected(Reason::MasterUnread(*fault))),
    };
    match judge_found(alloc, cut, found, cert) {
        Ok(judged) => Ok(judged),
        Err(fault) => Err(fault_of(fault)),
    }
}

// The fault for a certificate that couldn't be judged.
fn fault_of(fault: CheckFault) -> Fault
    ensures { result ≡ fault_of_check fault }
{
    match fault {
        CheckFault::Device => Fault::Stream(StreamFault::ReadFailed),
        CheckFault::Memory => Fault::Memory,
    }
}
