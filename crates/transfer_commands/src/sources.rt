//! Reads a project and the takes that it names.

ghost use Rattle.std.specs.Prelude.{◌≡◌, IfErr, IfOk};
ghost use Rattle.splice_core.specs.Splices.{splice_content};
ghost use Rattle.transfer_commands.specs.Excerpts.{AreOfItsTakes, AreOfTakes, ReadsSources, ReadsTakes};
ghost use Rattle.transfer_commands.specs.Outlining.{IsUnread};
ghost use Rattle.transfer_commands.specs.Sources.{SourcesUnread};

use crate::excerpts::read_excerpts;
use crate::fault::CommandFault;
use cut_core::{CutFault, Excerpts};
use folder_core::{Folder, read_file};
use splice_core::Splice;
use std::alloc::Global;
use transfer_core::splice_of;

/// The splice of a project, and what it reads of the takes that it names.
#[derive(Drop)]
pub struct Sources {
    /// The splice.
    pub splice: Splice,
    /// What it reads of its takes, by their numbers, or the first fault in what their files hold.
    pub takes: Result<Vec<Excerpts>, CutFault>,
}

/// Reads the project, then the takes that it names, and keeps of them what the splice reads. A take's file is read in
/// one pass, which doesn't hold its sound. The folder protects all of these files from then on.
pub fn source_excerpts<F: Folder>(
    alloc: Global,
    folder: &mut F,
    project: &str,
) -> Result<Sources, CommandFault>
    ensures same { F.view folder.new ≡ F.view folder.old }
    ensures excerpts { IfOk result (ReadsSources project.now (F.view folder.old)) }
    ensures of { IfOk result AreOfItsTakes }
    ensures fault { IfErr result (SourcesUnread project.now (F.view folder.old) (F.view folder.new)) }
{
    let project = read_file(alloc, folder, project)?;
    let splice = splice_of(alloc, &project)?;
    let takes = read_takes(alloc, folder, &splice)?;
    Ok(Sources { splice, takes })
}

// What a splice reads of its takes. The folder protects what was read so far from then on.
fn read_takes<F: Folder>(
    alloc: Global,
    folder: &mut F,
    splice: &Splice,
) -> Result<Result<Vec<Excerpts>, CutFault>, CommandFault>
    ensures same { F.view folder.new ≡ F.view folder.old }
    ensures excerpts { IfOk result (ReadsTakes (F.view folder.old) (splice_content splice.now)) }
    ensures of { IfOk result (AreOfTakes (splice_content splice.now)) }
    ensures fault { IfErr result IsUnread }
{
    let takes = read_excerpts(alloc, folder, splice);
    folder.protect();
    takes
}
