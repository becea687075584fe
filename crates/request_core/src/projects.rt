//! What a call needs of a project text.

ghost use Rattle.std.specs.Prelude.{IfErr, IfOk};
ghost use Rattle.splice_core.specs.Splices.{splice_content};
ghost use Rattle.request_core.specs.Projects as specs;
ghost use Rattle.request_core.specs.Projects.{IsOfDecimator, SaysDecimator, SaysSplice, SaysTakes, names_of, take_names_of};
ghost use Rattle.form_core.specs.Steps.{GivesUnless};

use crate::fault::Fault;
use fir_core::Taps;
use project_core::{Project, Splice};
use std::alloc::Global;

/// The names of the takes that a project text cuts, in order.
///
/// Refusals, in this order: `Project`, `NoSplice` if the text has no splice. Out of memory is always `Memory`.
#[tactic(auto, unfolding(crate::specs::Projects::take_names_of))]
pub fn take_names(alloc: Global, project: &[u8]) -> Result<Vec<String>, Fault>
    // What is returned is what the text states.
    ensures found { IfOk result (λ names. SaysTakes project.now (names_of names)) }
    // The answer or the fault is what reading in order ends with, unless memory runs out.
    ensures exact { GivesUnless Fault.Memory names_of result (take_names_of project.now) }
{
    let splice = splice_of(alloc, project)?;
    let Splice { takes, .. } = splice;
    Ok(takes)
}

/// The splice that a project text has.
///
/// Refusals, in this order: `Project`, `NoSplice` if the text has no splice. Out of memory is always `Memory`.
#[tactic(auto, unfolding(crate::specs::Projects::splice_of_text))]
pub fn splice_of(alloc: Global, project: &[u8]) -> Result<Splice, Fault>
    ensures found { IfOk result (λ s. SaysSplice project.now (splice_content s)) }
    ensures exact { GivesUnless Fault.Memory splice_content result (specs.splice_of_text project.now) }
{
    let Project { splice, .. } = project_core::read(alloc, project)?;
    splice.ok_or(Fault::NoSplice)
}

/// The decimator that a project text has.
///
/// Refusals, in this order: `Project`, `NoDecimation` if the text has no decimator. Out of memory is always `Memory`.
#[tactic(auto, unfolding(crate::specs::Projects::decimator_of_text))]
pub fn decimator_of(alloc: Global, project: &[u8]) -> Result<Taps, Fault>
    ensures found { IfOk result (SaysDecimator project.now) }
    ensures exact { GivesUnless Fault.Memory (λ t. t) result (specs.decimator_of_text project.now) }
    ensures cause { IfErr result IsOfDecimator }
{
    let Project { decimate, .. } = project_core::read(alloc, project)?;
    decimate.ok_or(Fault::NoDecimation)
}
