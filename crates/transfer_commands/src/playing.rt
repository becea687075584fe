//! Plays a file of a folder to another.

ghost use Rattle.std.specs.Prelude.{◌≡◌, IfErr, IfOk};
ghost use Rattle.folder_core.specs.Files.{IsReadFault, IsReadOf};
ghost use Rattle.transfer_commands.specs.Playing.{IsEnough, PlayComesTo, PlaysTo, SourceComesTo, left_in};

use crate::fault::CommandFault;
use crate::gaps::{no_gaps, rest_but};
use chunk_core::{Inlet, Outlet};
use folder_core::{FileFault, Folder, Gaps, hand_back, read_file};
use player_core::WaveRange;
use std::alloc::Global;
use std::io::{Cursor, Read, Write};
use transfer_core::{Fault, play_stream, whole_plays};

/// A file that is played by a project's text.
#[derive(Drop)]
pub(crate) struct Source<'a, R> {
    /// The project's text.
    pub(crate) project: &'a [u8],
    /// The frames that are played.
    pub(crate) range: WaveRange,
    /// The first bytes of the file, which were read.
    pub(crate) prefix: Vec<u8>,
    /// The file, which has the others left.
    pub(crate) file: R,
    /// Bytes of the file that no frame of these reads.
    pub(crate) gaps: Gaps,
}

/// Reads the project, opens the recording, creates the WAVE file and plays the one to the other. Returns how many bytes
/// the WAVE file has. After a fault of playing the WAVE file may hold a prefix of what was due, but a folder that keeps
/// old files keeps an old one. The folder protects the project's file before it opens the recording.
pub fn play_file<F: Folder>(
    alloc: Global,
    folder: &mut F,
    project: &str,
    input: &str,
    output: &str,
) -> Result<u64, CommandFault>
    ensures { PlayComesTo project.now input.now output.now (F.view folder.old) (F.view folder.new) result }
{
    whole_plays();
    let project = read_project(alloc, folder, project)?;
    let Ok(file) = folder.open(input) else {
        return Err(CommandFault::ReadFailed);
    };
    let source = Source {
        project: &project,
        range: WaveRange::whole(),
        prefix: Vec::new(alloc),
        file,
        gaps: no_gaps(),
    };
    play_to(alloc, folder, source, output)
}

/// The bytes of a project's file, which the folder protects from then on.
pub(crate) fn read_project<F: Folder>(
    alloc: Global,
    folder: &mut F,
    name: &str,
) -> Result<Vec<u8>, FileFault>
    ensures same { F.view folder.new ≡ F.view folder.old }
    ensures bytes { IfOk result (λ bytes. IsReadOf (F.view folder.old) name.now bytes.items) }
    ensures fault { IfErr result IsReadFault }
{
    let read = read_file(alloc, folder, name);
    folder.protect();
    read
}

/// Creates a file, plays another to it, and keeps it, or gives it up after a fault.
pub(crate) fn play_to<F: Folder>(
    alloc: Global,
    folder: &mut F,
    source: Source<'_, F::In>,
    output: &str,
) -> Result<u64, CommandFault>
    requires { IsEnough source }
    ensures { SourceComesTo F.In.remaining source.entry output.now (F.view folder.old) (F.view folder.new) result }
{
    let Ok(wave) = folder.create(output) else {
        return Err(CommandFault::WriteFailed);
    };
    let (played, wave) = play_source(alloc, folder, source, wave);
    let handed = hand_back(folder, output, &played, wave);
    match played {
        Ok(count) => match handed {
            Ok(()) => Ok(count),
            Err(_) => Err(CommandFault::WriteFailed),
        },
        Err(fault) => Err(CommandFault::Call(fault)),
    }
}

// Plays a file to one that was created, and returns that one. The folder passes over the gaps if it can.
fn play_source<F: Folder>(
    alloc: Global,
    folder: &F,
    source: Source<'_, F::In>,
    wave: F::Out,
) -> (Result<u64, Fault>, F::Out)
    requires { IsEnough source }
    ensures { PlaysTo F.Out.contents source.entry.project.now source.entry.range (left_in F.In.remaining source.entry)
        wave result.1 result.0 }
{
    let Source {
        project,
        range,
        prefix,
        file,
        gaps,
    } = source;
    let rest = rest_but(folder, &prefix, file, gaps);
    play_reader(alloc, project, range, Cursor::new(prefix).chain(rest), wave)
}

/// Plays a reader's file to a writer, and returns that.
pub(crate) fn play_reader<R: Read + Drop, W: Write>(
    alloc: Global,
    project: &[u8],
    range: WaveRange,
    reader: R,
    wave: W,
) -> (Result<u64, Fault>, W)
    ensures { PlaysTo W.contents project.now range (R.remaining reader) wave result.1 result.0 }
{
    let mut inlet = Inlet::new(reader);
    let mut outlet = Outlet::new(wave);
    let played = play_stream(alloc, project, range, &mut inlet, &mut outlet);
    (played, outlet.into_inner())
}
