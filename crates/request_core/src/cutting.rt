//! The cut of a project and its takes.

ghost use Rattle.std.specs.Prelude.{IfErr, IfOk};
ghost use Rattle.splice_core.specs.Splices.{splice_content};
ghost use Rattle.cut_core.specs.Excerpts.{AreOfTakes};
ghost use Rattle.cut_core.specs.Opening.{file_bytes};
ghost use Rattle.request_core.specs.Cutting.{ForTakes, IsCutFault, ReturnsCut, SaysCut};

use crate::fault::Fault;
use crate::projects::splice_of;
use cut_core::{Cut, Excerpts, excerpts_of_files};
use form_core::Form;
use splice_core::Splice;
use std::alloc::Global;

/// The cut of a project's text and the files of its takes, in the order of their numbers. `form` is the form of the
/// file to be cut, if there is one.
///
/// Refusals, in this order: `Project`, `NoSplice`, `TakeNumber`, `TakeUnread`, those of [`cut_excerpts`].
pub fn cut_files(
    alloc: Global,
    project: &[u8],
    takes: &[Vec<u8>],
    form: Option<Form>,
) -> Result<Cut, Fault>
    ensures found { IfOk result (SaysCut project.now (file_bytes takes.now) form) }
    ensures exact { ReturnsCut form result project.now (file_bytes takes.now) }
{
    let splice = splice_of(alloc, project)?;
    let takes = excerpts_of_files(alloc, &splice, takes)?;
    cut_excerpts(splice, takes, form)
}

/// The cut of a splice and what was read of its takes, in the order of their numbers. `form` is the form of the file to
/// be cut, if there is one.
///
/// Refusals: those of [`Cut::of`], in their order.
pub fn cut_excerpts(splice: Splice, takes: Vec<Excerpts>, form: Option<Form>) -> Result<Cut, Fault>
    requires { AreOfTakes (splice_content splice) takes.items }
    // For whichever project and files the takes were read, it is their cut, or is refused as they are.
    ensures found { ForTakes splice takes.items (λ project files. IfOk result (SaysCut project files form)) }
    ensures exact { ForTakes splice takes.items (ReturnsCut form result) }
    ensures fault { IfErr result IsCutFault }
{
    Ok(Cut::of(splice, takes, form)?)
}
