//! Plays a file of a folder between its neighbours so that its WAVE file names the loudspeakers of its channels.

ghost use Rattle.std.specs.Prelude.{◌≡◌, ◌≤◌, List, Option, ℕ, IfErr, IfOk, length};
ghost use Rattle.dsd_bits.specs.Sounds.{IsSound};
ghost use Rattle.folder_core.specs.Files.{IsGiven, IsReadOf};
ghost use Rattle.request_core.specs.Projects.{SaysDecimator};
ghost use Rattle.speaker_core.specs.Reordering.{NamesChannels};
ghost use Rattle.transfer_commands.specs.BetweenSpeaking.{IsSpokenBetween, SpeakBetweenComesTo, SpeechBetweenComesTo, frames_in, ordered_parts};
ghost use Rattle.transfer_commands.specs.BetweenPlaying.{JoinsTo};
ghost use Rattle.transfer_commands.specs.Opening.{left_of};
ghost use Rattle.transfer_commands.specs.PartPlaying.{DescribesRead, ReportsRead};
ghost use Rattle.transfer_commands.specs.Renaming.{left_parts};
ghost use Rattle.transfer_commands.specs.Speaking.{IsNotSpoken};

use crate::between::{BetweenAsked, BetweenFault, Edges, JoinedBy, edges_of, join};
use crate::convert_speakers::parts_of;
use crate::fault::CommandFault;
use crate::opened::OpenedFile;
use crate::playing::read_project;
use crate::renaming::Parts;
use crate::reporting::{Reported, ReportedFile, hold_reported, open_reported};
use crate::speaking::{PlayedSpeakers, named_by, reordered, reordering_of};
use fir_core::Taps;
use folder_core::{Folder, hand_back};
use player_core::WaveHead;
use request_core::decimator_of;
use speaker_core::{Reordering, Speakers, push_groups};
use std::alloc::Global;
use std::io::{Cursor, Read, Write};
use transfer_core::Fault;

/// A file that is played between its neighbours, with its channels in another order.
#[derive(Drop)]
pub(crate) struct SpokenBetween<R> {
    /// What a filter reaches of the neighbours, with their channels in that order.
    pub(crate) edges: Edges,
    /// How the header of the WAVE file is written. It has the mask.
    pub(crate) head: WaveHead,
    /// The parts of the file.
    pub(crate) parts: Parts<R>,
    /// The order of the channels.
    pub(crate) reordering: Reordering,
}

/// Plays a recording between others as [`play_between_file`](crate::play_between_file) does, to a WAVE file that names
/// the loudspeakers of its channels as [`play_speakers_file`](crate::play_speakers_file) does. The loudspeakers are those
/// of the recording itself. Its neighbours have the same channels in the same order, whatever their own IDs or channel
/// types say.
///
/// A recording that can be opened again is read through for its loudspeakers, and opened again to be played. If it has
/// other channels then, the answer is `ReadFailed`. Any other, as a pipe, is opened once and held whole. Refusals are
/// those of `play_between_file`, in the same order.
pub fn play_between_speakers_file<F: Folder>(
    alloc: Global,
    folder: &mut F,
    project: &str,
    input: &str,
    output: &str,
    asked: BetweenAsked<'_>,
) -> Result<PlayedSpeakers, BetweenFault>
    ensures { SpeakBetweenComesTo asked.entry.is_wide project.now input.now output.now asked.entry.around (F.view folder.old) (F.view folder.new) result }
{
    let text = read_project(alloc, folder, project)?;
    let taps = decimator_of(alloc, &text)?;
    let asked = Asked {
        taps: &taps,
        output,
        between: asked,
    };
    if folder.reopens(input) {
        let file = open_reported(alloc, folder, input)?;
        let ReportedFile { reported, opened } = file;
        return speak_reported(alloc, folder, asked, &reported, opened);
    }
    let file = hold_reported(alloc, folder, input)?;
    let ReportedFile { reported, opened } = file;
    speak_reported(alloc, folder, asked, &reported, opened)
}

// What is asked for: the filter, the name of the WAVE file, and between which files.
#[derive(Clone, Copy)]
struct Asked<'a> {
    taps: &'a Taps,
    output: &'a str,
    between: BetweenAsked<'a>,
}

// Plays a file that was opened, by what is reported of it.
fn speak_reported<F: Folder, R: Read + Drop>(
    alloc: Global,
    folder: &mut F,
    asked: Asked<'_>,
    reported: &Reported,
    opened: OpenedFile<R>,
) -> Result<PlayedSpeakers, BetweenFault>
    requires sound { IsSound opened.sound }
    requires within { opened.sound.start ≤ length opened.prefix.items }
    ensures { (project input text : List ℕ) → IsReadOf (F.view folder.old) project text → SaysDecimator text asked.entry.taps.now
        → ReportsRead input (F.view folder.old) reported.now → DescribesRead input (F.view folder.old) opened.sound
        → IsGiven (F.view folder.old) input (left_of R.remaining opened)
        → SpeakBetweenComesTo asked.entry.between.is_wide project input asked.entry.output.now asked.entry.between.around (F.view folder.old) (F.view folder.new) result }
{
    if opened.sound.count % 8 != 0 {
        return Err(BetweenFault::from(Fault::NotWholeBytes));
    }
    let speakers = named_by(alloc, reported)?;
    let mask = speakers.mask;
    let BetweenAsked { around, is_wide } = asked.between;
    let edges = edges_of(alloc, folder, asked.taps, &opened.sound, around)?;
    folder.protect();
    let spoken = spoken_between(alloc, opened, &edges, speakers, is_wide)?;
    let size = speak_to(alloc, folder, asked.taps, spoken, asked.output)?;
    Ok(PlayedSpeakers { size, mask })
}

// A file that was opened, to be played with these loudspeakers between what was kept of its neighbours.
fn spoken_between<R: Drop>(
    alloc: Global,
    opened: OpenedFile<R>,
    edges: &Edges,
    speakers: Speakers,
    is_wide: bool,
) -> Result<SpokenBetween<R>, CommandFault>
    requires sound { IsSound opened.sound }
    requires within { opened.sound.start ≤ length opened.prefix.items }
    requires channels { NamesChannels speakers.order.items }
    ensures spoken { IfOk result (IsSpokenBetween edges.now speakers is_wide opened.sound) }
    ensures left { IfOk result (λ s. (left : R → Option (List ℕ)) → left_parts left s.parts ≡ left_of left opened) }
    ensures fault { IfErr result (IsNotSpoken speakers opened.sound) }
{
    if speakers.order.len() != opened.sound.channels {
        return Err(CommandFault::ReadFailed);
    }
    let head = WaveHead {
        is_wide,
        mask: speakers.mask,
    };
    let edges = Edges {
        rate: edges.rate,
        channels: edges.channels,
        before: frames_of(alloc, &edges.before, &speakers)?,
        after: frames_of(alloc, &edges.after, &speakers)?,
    };
    let reordering = reordering_of(alloc, &opened.sound, speakers)?;
    let parts = parts_of(alloc, opened)?;
    Ok(SpokenBetween {
        edges,
        head,
        parts,
        reordering,
    })
}

// Sound bytes with a byte of each channel in turn, with the channels in the order of their loudspeakers.
fn frames_of(alloc: Global, bytes: &[u8], speakers: &Speakers) -> Result<Vec<u8>, Fault>
    requires channels { NamesChannels speakers.now.order.items }
    requires some { 1 ≤ length speakers.now.order.items }
    requires few { length speakers.now.order.items ≤ 6 }
    ensures ordered { IfOk result (λ frames. frames.items ≡ frames_in speakers.now.order.items bytes.now) }
    ensures fault { IfErr result (λ fault. fault ≡ Fault.Memory) }
{
    let groups = speakers.moved_groups(bytes.len() / speakers.order.len());
    let mut frames = Vec::with_capacity(alloc, bytes.len())?;
    push_groups(&mut frames, bytes, &speakers.order, 1, groups)?;
    Ok(frames)
}

// Creates a file, plays another to it, and keeps it, or gives it up after a fault.
fn speak_to<F: Folder, R: Read + Drop>(
    alloc: Global,
    folder: &mut F,
    taps: &Taps,
    spoken: SpokenBetween<R>,
    output: &str,
) -> Result<u64, CommandFault>
    ensures { SpeechBetweenComesTo R.remaining taps.now spoken output.now (F.view folder.old) (F.view folder.new) result }
{
    let Ok(wave) = folder.create(output) else {
        return Err(CommandFault::WriteFailed);
    };
    let (played, wave) = speak(alloc, taps, spoken, wave);
    let handed = hand_back(folder, output, &played, wave);
    match played {
        Ok(count) => match handed {
            Ok(()) => Ok(count),
            Err(_) => Err(CommandFault::WriteFailed),
        },
        Err(fault) => Err(CommandFault::Call(fault)),
    }
}

// Plays a file to one that was created, and returns that one.
fn speak<R: Read + Drop, W: Write>(
    alloc: Global,
    taps: &Taps,
    spoken: SpokenBetween<R>,
    wave: W,
) -> (Result<u64, Fault>, W)
    ensures { JoinsTo spoken.head taps.now spoken.edges (ordered_parts R.remaining spoken) (W.contents wave)
        (W.contents result.1) result.0 }
{
    let SpokenBetween {
        edges,
        head,
        parts,
        reordering,
    } = spoken;
    let Parts {
        head: before,
        tail,
        file,
    } = parts;
    let joined = JoinedBy {
        taps,
        edges: &edges,
        head,
    };
    let sound = reordered(Cursor::new(tail).chain(file), reordering);
    let reader = Cursor::new(before).chain(sound);
    join(alloc, joined, reader, wave)
}
