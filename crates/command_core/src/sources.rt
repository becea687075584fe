//! Plans masters, and makes the cuts to judge by, from what a project reads of its takes.

ghost use Rattle.std.specs.Prelude.{◌≡◌, List, ℕ, IfErr, IfOk, Some, length};
ghost use Rattle.splice_core.specs.Splices.{splice_content};
ghost use Rattle.form_core.specs.Steps.{FailsUnless};
ghost use Rattle.cut_core.specs.Opening.{IsOfTakes};
ghost use Rattle.request_core.specs.Cutting.{SaysCut, said_cut};
ghost use Rattle.archive_core.specs.Planning.{IsPlanned, Plans};
ghost use Rattle.command_core.specs.Sources.{AreExcerptsOf};

use archive_core::{Fault, Form, PlannedMaster, Watch, plan_master};
use cut_core::Cut;
use folder_core::{Folder, Work};
use request_core::cut_excerpts;
use std::alloc::Global;
use transfer_commands::Sources;

/// A folder that shows how large the files of a master will be, and how far its search or its certificate has come.
#[derive(Drop)]
pub(crate) struct WorkShown<'a, F> {
    pub(crate) folder: &'a F,
}

impl<F: Folder> Watch for WorkShown<'_, F> {
    fn tell_sizes(&self, master: u64, most_of_certificate: u64) {
        self.folder.show_sizes(master, most_of_certificate);
    }

    fn tell(&self, done: usize, all: usize) {
        self.folder.show_work(done, all);
    }
}

/// Plans the master of a project and what it reads of its takes. The folder shows how large its files will be, and how
/// far the search has come.
///
/// Refusals: the first fault in the takes' files; those of [`plan_master`].
pub(crate) fn cut_sources<F: Folder>(
    alloc: Global,
    folder: &mut F,
    sources: Sources,
    form: Form,
) -> Result<PlannedMaster, Fault>
    requires { IsOfTakes (splice_content sources.splice) (length (splice_content sources.splice).takes) sources.takes }
    ensures same { F.view folder.new ≡ F.view folder.old }
    // Whichever project and files it was read from, the master is cut from them, or refused as they are.
    ensures found { (project : List ℕ) (files : List (List ℕ)) → AreExcerptsOf project files sources
        → IfOk result (Plans project files form) }
    ensures planned { IfOk result IsPlanned }
    ensures refused { (project : List ℕ) (files : List (List ℕ)) → AreExcerptsOf project files sources
        → IfErr result (λ fault. FailsUnless Fault.Memory fault (said_cut project files (Some form))) }
{
    let cut = cut_of(sources, Some(form))?;
    folder.begin_work(Work::Search);
    let planned = plan_master(alloc, cut, form, &WorkShown { folder });
    folder.end_work();
    planned
}

/// The cut of a project and what it reads of its takes, into a file of a form if one is asked for.
///
/// Refusals: the first fault in the takes' files; those of [`cut_excerpts`].
pub(crate) fn cut_of(sources: Sources, form: Option<Form>) -> Result<Cut, Fault>
    requires { IsOfTakes (splice_content sources.splice) (length (splice_content sources.splice).takes) sources.takes }
    // Whichever project and files it was read from, this is their cut, or it is refused as they are.
    ensures found { (project : List ℕ) (files : List (List ℕ)) → AreExcerptsOf project files sources
        → IfOk result (SaysCut project files form) }
    ensures refused { (project : List ℕ) (files : List (List ℕ)) → AreExcerptsOf project files sources
        → IfErr result (λ fault. FailsUnless Fault.Memory fault (said_cut project files form)) }
{
    let Sources { splice, takes } = sources;
    cut_excerpts(splice, takes?, form)
}
