//! Masters that are planned: everything is chosen and all memory is reserved before a byte is written.

ghost use Rattle.std.specs.Prelude.{◌≡◌, ◌-◌, ◌<◌, ◌^◌, IfErr, IfOk, List, OnErr, OnOk, ℕ};
ghost use Rattle.archive_core.specs.Editing.{ForEdits};
ghost use Rattle.archive_core.specs.Planning.{AnswersPlanned, ForCut, ForFileOf, IsFileOf, IsPlanned, Plans};
ghost use Rattle.chunk_core.specs.Outlets.{Puts, PutsPart, outlet_failures};
ghost use Rattle.master_core.specs.Certifying.{AppendsCert, AppendsCertPrefix};
ghost use Rattle.master_core.specs.Writing.{CountsFailure, OnBytes};

use chunk_core::{Device, Outlet};
use cut_core::Cut;
use form_core::{Ends, Form};
use master_core::{
    CertifyingRoom, ChosenBridges, MasterRoom, Planned, Watch, certify, plan, write_master,
};
use request_core::Fault;
use std::alloc::Global;
use std::io::Write;

/// A master whose bridges are chosen, with all memory that writing its file and its certificate takes. Its channels are
/// never in memory: while they are written, they are put together from the parts of the takes that the cut kept.
#[derive(Drop)]
pub struct PlannedMaster {
    cut: Cut,
    form: Form,
    bridges: ChosenBridges,
    // The bytes before and after its sound.
    ends: Ends,
    // The memory in which its file and its certificate are written.
    room: MasterRoom,
    cert_room: CertifyingRoom,
}

/// The master of a cut, before it is written. The cut must be for a file of the form. The watch is told how large
/// its files will be, and how far the search for its bridges has come.
///
/// Refusals: `Memory`; `NotWholeBytes` only for a cut that is not for a file of the form.
pub fn plan_master<W: Watch>(
    alloc: Global,
    cut: Cut,
    form: Form,
    watch: &W,
) -> Result<PlannedMaster, Fault>
    ensures planned { IfOk result IsPlanned }
    // It is the plan of a file.
    ensures file { IfOk result (λ planned. (file : List ℕ) × IsFileOf planned file) }
    // If it is the cut of a project and files, it is their master, and its certificate shows it to be least.
    ensures found { ForCut form cut (λ project files. IfOk result (Plans project files form)) }
    ensures only { ForCut form cut (λ project files. ForEdits project files form (AnswersPlanned result)) }
    ensures refused { ForCut form cut (λ project files. IfErr result (λ fault. fault ≡ Fault.Memory)) }
{
    let Planned {
        bridges,
        ends,
        room,
        cert_room,
    } = plan(alloc, &cut, form, watch)?;
    Ok(PlannedMaster {
        cut,
        form,
        bridges,
        ends,
        room,
        cert_room,
    })
}

impl PlannedMaster {
    ghost use Rattle.archive_core.specs.Planning.{CertifiesPlanned, IsSamePlan, planned_total};

    /// What the bridges of the master cost: the sum over all bridges of all channels.
    pub fn total(&self) -> u128
        ensures { result ≡ planned_total self.now }
    {
        self.bridges.total()
    }

    /// Writes the master's file. It takes no memory, and changes nothing of the plan but the contents of the memory
    /// reserved for it.
    ///
    /// Refusal: `Device` if a write fails; a prefix of the file was written, but not all of it.
    pub fn write_master<W: Write>(&mut self, outlet: &mut Outlet<W>) -> Result<(), Device>
        requires planned { IsPlanned self.old }
        requires ready { outlet_failures outlet.old < 2 ^ 64 - 1 }
        ensures planned { IsPlanned self.new }
        ensures same { IsSamePlan self.old self.new }
        ensures ok { ForFileOf self.old (λ file. OnOk result (Puts W.contents outlet.old outlet.new file)) }
        ensures err { ForFileOf self.old (λ file. OnErr result (PutsPart W.contents outlet.old outlet.new file)) }
        ensures failures { CountsFailure result outlet.old outlet.new }
    {
        let form = self.form;
        write_master(
            &self.cut,
            &self.bridges,
            form,
            &self.ends,
            &mut self.room,
            outlet,
        )
    }

    /// There is a certificate of the master. It does nothing.
    pub fn is_certifiable(&self)
        requires { IsPlanned self.now }
        ensures { (cert : List ℕ) × CertifiesPlanned self.now cert }
    {}

    /// Writes the certificate of the master to an outlet, and returns the outlet. The text is a function of the
    /// project, the takes and the bits of the bridges. The rows of each bridge are made while they are written. It
    /// takes no memory. The watch is told how many bridges were written.
    ///
    /// Refusal: `Device` if a write fails; a prefix of the certificate was written.
    pub fn write_certificate<W: Write, T: Watch>(
        self,
        outlet: Outlet<W>,
        watch: &T,
    ) -> (Result<(), Device>, Outlet<W>)
        requires planned { IsPlanned self }
        requires ready { outlet_failures outlet < 2 ^ 64 - 1 }
        ensures ok { OnOk result.0 (OnBytes W.contents outlet result.1 (AppendsCert self.cut self.bridges)) }
        ensures err { OnErr result.0 (OnBytes W.contents outlet result.1 (AppendsCertPrefix self.cut self.bridges)) }
        ensures failures { CountsFailure result.0 outlet result.1 }
    {
        let PlannedMaster {
            cut,
            form: _,
            bridges,
            ends: _,
            room: _,
            cert_room,
        } = self;
        certify(&cut, &bridges, cert_room, outlet, watch)
    }
}
