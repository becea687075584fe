//! Masters cut from takes by cue lists.

ghost use Rattle.std.specs.Prelude.{◌≡◌, IfErr, IfOk, List, Some, ℕ};
ghost use Rattle.judge_core.specs.Accepting.{CostsLeast, IsMaster};
ghost use Rattle.archive_core.specs.Editing.{AcceptsEdited, AnswersEdited, CertifiesEdited, ForEdits, IsEdited, SumsEdited};
ghost use Rattle.archive_core.specs.Planning.{CertifiesPlanned, IsFileOf, IsPlanned, IsSamePlan};
ghost use Rattle.request_core.specs.Cutting.{IsFaultOfCut};
ghost use Rattle.cut_core.specs.Opening.{file_bytes};

use crate::planning::{PlannedMaster, plan_master};
use chunk_core::Outlet;
use form_core::Form;
use master_core::Unwatched;
use request_core::{Fault, cut_files};
use std::alloc::{AllocError, Global};

/// A master that was cut.
#[derive(Drop)]
pub struct Edited {
    /// The bytes of the master's file.
    pub master: Vec<u8>,
    /// The bytes of its certificate, version 2.
    pub cert: Vec<u8>,
    /// What its bridges cost: the sum over all bridges of all channels.
    pub total: u128,
}

/// The master of a project: in each channel the cues of its splice in turn, cut from the takes, and after each cue but
/// the last its bridge. The bits of a bridge cost least of all lists of its length; of several such lists they are the
/// first, read from the last bit to the first. The master is a file of the form, at the rate of the takes, with the
/// channel IDs and the layout of take 0. A DSDIFF file has a mark at the first bit of each titled cue. No master of the
/// project and the takes, with whatever bridges of these lengths, has a smaller total. With it comes the certificate
/// that shows each of its bridges to be least.
///
/// `takes` are the files of the takes, DSDIFF or DSF, in the order of their numbers. Refusals, in this order:
/// `Project`, `NoSplice`, `TakeNumber`, `TakeUnread` for the first file that can't be read, `TakeMismatch` for the
/// first take that has another rate or number of channels than take 0, `CueOutside` for the first cue that stops after
/// the end of its take, `MasterTooLong` (more than `2^36` bits a channel), `NotWholeBytes` if the form is DSDIFF and
/// the channels would end inside a byte, then by rising cue `NoRoomBefore` and `NoRoomAfter`. Whenever memory runs out
/// it is `Memory`.
pub fn edit(alloc: Global, project: &[u8], takes: &[Vec<u8>], form: Form) -> Result<Edited, Fault>
    // What is returned is the file of the cues and the first least bridges, and what they cost.
    ensures found { IfOk result (IsEdited project.now (file_bytes takes.now) form) }
    // The file is a master of the project and the takes.
    ensures master { IfOk result (λ made. IsMaster project.now (file_bytes takes.now) made.master.items) }
    // The certificate is a function of the project, the takes and the bits of the master.
    ensures certificate { IfOk result (CertifiesEdited project.now (file_bytes takes.now)) }
    // The certificate shows each bridge of the master to be least, and the total is what they cost.
    ensures accepted { IfOk result (AcceptsEdited project.now (file_bytes takes.now)) }
    // No master of the project and the takes costs less.
    ensures joint { IfOk result (λ made. CostsLeast project.now (file_bytes takes.now) made.master.items made.total) }
    // It is the sum over all bridges of what their bits cost over their windows.
    ensures windows { IfOk result (SumsEdited project.now (file_bytes takes.now)) }
    // The master of a project and takes is returned, unless memory runs out.
    ensures only { ForEdits project.now (file_bytes takes.now) form (AnswersEdited result) }
    // Which fault it is: the first of the project, its splice and its cut.
    ensures refused { IfErr result (IsFaultOfCut project.now (file_bytes takes.now) (Some form)) }
{
    let cut = cut_files(alloc, project, takes, Some(form))?;
    let mut planned = plan_master(alloc, cut, form, &Unwatched {})?;
    let total = planned.total();
    let master = master_of(alloc, &mut planned)?;
    let cert = cert_of(alloc, planned)?;
    Ok(Edited {
        master,
        cert,
        total,
    })
}

// The file of a planned master, in memory. A write fails only if memory runs out.
fn master_of(alloc: Global, planned: &mut PlannedMaster) -> Result<Vec<u8>, AllocError>
    requires { IsPlanned planned.old }
    ensures planned { IsPlanned planned.new }
    ensures same { IsSamePlan planned.old planned.new }
    ensures bytes { (file : List ℕ) → IsFileOf planned.old file → IfOk result (λ master. master.items ≡ file) }
{
    let mut outlet = Outlet::new(Vec::new(alloc));
    match planned.write_master(&mut outlet) {
        Ok(()) => Ok(outlet.into_inner()),
        Err(_) => Err(AllocError),
    }
}

// Its certificate.
fn cert_of(alloc: Global, planned: PlannedMaster) -> Result<Vec<u8>, AllocError>
    requires { IsPlanned planned }
    ensures { IfOk result (λ cert. CertifiesPlanned planned cert.items) }
{
    let (came, outlet) = planned.write_certificate(Outlet::new(Vec::new(alloc)), &Unwatched {});
    match came {
        Ok(()) => Ok(outlet.into_inner()),
        Err(_) => Err(AllocError),
    }
}
