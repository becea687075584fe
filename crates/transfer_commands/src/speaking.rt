//! Plays a file of a folder so that its WAVE file names the loudspeakers of its channels.

ghost use Rattle.std.specs.Prelude.{◌≡◌, ◌++◌, ◌*◌, ◌/◌, ◌≤◌, IfErr, IfOk, List, Option, ℕ, length};
ghost use Rattle.dsd_bits.specs.Sounds.{IsSound};
ghost use Rattle.player_core.specs.Groups.{part_size};
ghost use Rattle.request_core.specs.declared.fault.Fault.TheVariants.{Memory};
ghost use Rattle.speaker_core.specs.Reordered.{left_in_order, reordered_known, reordering_groups, reordering_order, reordering_size};
ghost use Rattle.speaker_core.specs.Reordering.{NamesChannels};
ghost use Rattle.speaker_core.specs.Speakers.{moved_groups};
ghost use Rattle.folder_core.specs.Files.{IsGiven, IsReadOf};
ghost use Rattle.transfer_commands.specs.Opening.{left_of};
ghost use Rattle.transfer_commands.specs.PartPlaying.{DescribesRead, ReportsRead};
ghost use Rattle.transfer_commands.specs.Playing.{PlaysTo};
ghost use Rattle.transfer_commands.specs.Speaking.{IsNotSpoken, IsToBeSpoken, SpeakComesTo, SpeechComesTo, left_spoken, mask_of, order_of, ordered_spoken};

use crate::fault::CommandFault;
use crate::gaps::neighbours;
use crate::opened::OpenedFile;
use crate::parts::{FoundPart, PartAsked, PartFault, part_by};
use crate::playing::{play_reader, read_project};
use crate::reporting::{Reported, ReportedFile, hold_reported, open_reported};
use dsd_bits::Sound;
use folder_core::{Folder, hand_back};
use form_core::Form;
use player_core::{WaveHead, WaveRange};
use speaker_core::{ReorderedFile, Reordering, Speakers};
use std::alloc::Global;
use std::io::{Cursor, Read, Write};
use transfer_core::Fault;

/// A file that is played by a project's text, with its channels in another order.
#[derive(Drop)]
pub(crate) struct Spoken<'a, R> {
    /// The project's text.
    pub(crate) project: &'a [u8],
    /// The frames that are played, and the head of their WAVE file, which has the mask.
    pub(crate) range: WaveRange,
    /// The bytes before the sound, which were read.
    pub(crate) before: Vec<u8>,
    /// The first bytes of the sound, as far as they were read.
    pub(crate) tail: Vec<u8>,
    /// The file, which has the others left.
    pub(crate) file: R,
    /// The order of the channels.
    pub(crate) reordering: Reordering,
}

/// A file that was played with the loudspeakers of its channels.
#[derive(Clone, Copy)]
pub struct PlayedSpeakers {
    /// How many bytes its WAVE file has.
    pub size: u64,
    /// The channel mask of its channels, as their IDs or the channel type name them; 0 if they name none. A WAVE file of
    /// 16 bits with one or two channels has no place for it.
    pub mask: u32,
}

/// Plays a part of a file, or all of it, as [`play_part_file`](crate::play_part_file) does, to a WAVE file that names
/// the loudspeakers of its channels: the channel mask has their bits, and the channels come in the order of these. The
/// IDs of a DSDIFF file say which loudspeakers they are, or the channel type of a DSF file. If an ID names none, or two
/// channels have the same, the mask is 0, and the channels come in their own order. A WAVE file of 16 bits with one or
/// two channels has no place for a mask.
///
/// A recording that can be opened again is read through for its loudspeakers and the part, and opened again to be
/// played. Any other, as a pipe, is opened once and held whole, so that a mark is found in it, too.
///
/// Refusals before the WAVE file is created, in this order: `ReadFailed` of the project; `ReadFailed` and `FileUnread` of
/// each opening of the recording; `Project`, `NoDecimation`, `RateNotDivided`, `NoMark`, `PartOutside`, `PartReversed`;
/// `ReadFailed` if the recording has other channels when it is opened again. Then `WriteFailed` if it can't be created,
/// and those of [`play_stream`](transfer_core::play_stream). Out of memory is always `Memory`.
pub fn play_speakers_file<F: Folder>(
    alloc: Global,
    folder: &mut F,
    project: &str,
    input: &str,
    output: &str,
    asked: PartAsked,
) -> Result<PlayedSpeakers, PartFault>
    ensures { SpeakComesTo asked.is_wide project.now input.now output.now asked.span (F.view folder.old) (F.view folder.new) result }
{
    let text = read_project(alloc, folder, project)?;
    let asked = Asked {
        project: &text,
        output,
        part: asked,
    };
    if folder.reopens(input) {
        let file = open_reported(alloc, folder, input)?;
        let ReportedFile { reported, opened } = file;
        return speak_reported(alloc, folder, asked, &reported, opened);
    }
    let file = hold_reported(alloc, folder, input)?;
    let ReportedFile { reported, opened } = file;
    speak_reported(alloc, folder, asked, &reported, opened)
}

// What is asked for: the project's text, the name of the WAVE file, and the part.
#[derive(Clone, Copy)]
struct Asked<'a> {
    project: &'a [u8],
    output: &'a str,
    part: PartAsked,
}

// Plays a file that was opened, by what is reported of it.
fn speak_reported<F: Folder, R: Read + Drop>(
    alloc: Global,
    folder: &mut F,
    asked: Asked<'_>,
    reported: &Reported,
    opened: OpenedFile<R>,
) -> Result<PlayedSpeakers, PartFault>
    requires sound { IsSound opened.sound }
    requires within { opened.sound.start ≤ length opened.prefix.items }
    ensures { (project input : List ℕ) → IsReadOf (F.view folder.old) project asked.entry.project.now
        → ReportsRead input (F.view folder.old) reported.now → DescribesRead input (F.view folder.old) opened.sound
        → IsGiven (F.view folder.old) input (left_of R.remaining opened)
        → SpeakComesTo asked.entry.part.is_wide project input asked.entry.output.now asked.entry.part.span (F.view folder.old) (F.view folder.new) result }
{
    let speakers = named_by(alloc, reported)?;
    let part = part_by(alloc, asked.project, reported, asked.part.span)?;
    let mask = speakers.mask;
    let found = FoundPart { part, opened };
    let spoken = spoken_of(alloc, found, speakers, asked.part.is_wide)?;
    let size = speak_to(alloc, folder, spoken, asked.output)?;
    Ok(PlayedSpeakers { size, mask })
}

/// The loudspeakers of what is reported of a file.
pub(crate) fn named_by(alloc: Global, reported: &Reported) -> Result<Speakers, Fault>
    ensures mask { IfOk result (λ s. s.mask ≡ mask_of reported.now) }
    ensures order { IfOk result (λ s. s.order.items ≡ order_of reported.now) }
    ensures channels { IfOk result (λ s. NamesChannels s.order.items) }
    ensures fault { IfErr result (λ fault. fault ≡ Memory) }
{
    let speakers = match reported.form {
        Form::Dsdiff => Speakers::of_ids(alloc, reported.description.ids()),
        Form::Dsf | Form::Dsf8 => Speakers::of_layout(alloc, reported.description.layout()),
    };
    Ok(speakers?)
}

// A part that was found, to be played with these loudspeakers.
fn spoken_of<'a, R: Drop>(
    alloc: Global,
    found: FoundPart<'a, R>,
    speakers: Speakers,
    is_wide: bool,
) -> Result<Spoken<'a, R>, CommandFault>
    requires sound { IsSound found.opened.sound }
    requires within { found.opened.sound.start ≤ length found.opened.prefix.items }
    requires channels { NamesChannels speakers.order.items }
    ensures spoken { IfOk result (IsToBeSpoken found.entry.part.project.now found.entry.part.start found.entry.part.stop
        speakers is_wide found.entry.opened.sound) }
    ensures left { IfOk result (λ s. (left : R → Option (List ℕ)) → left_spoken left s ≡ left_of left found.entry.opened) }
    ensures refused { IfErr result (IsNotSpoken speakers found.entry.opened.sound) }
{
    let FoundPart { part, opened } = found;
    let OpenedFile {
        sound,
        prefix,
        file,
    } = opened;
    if speakers.order.len() != sound.channels {
        return Err(CommandFault::ReadFailed);
    }
    let head = WaveHead {
        is_wide,
        mask: speakers.mask,
    };
    let reordering = reordering_of(alloc, &sound, speakers)?;
    let (before, tail) = split(alloc, prefix, sound.start)?;
    Ok(Spoken {
        project: part.project,
        range: part.range(head),
        before,
        tail,
        file,
        reordering,
    })
}

/// The order in which the channels of a sound come.
pub(crate) fn reordering_of(
    alloc: Global,
    sound: &Sound,
    speakers: Speakers,
) -> Result<Reordering, Fault>
    requires sound { IsSound sound.now }
    requires channels { NamesChannels speakers.order.items }
    requires number { length speakers.order.items ≡ sound.now.channels }
    ensures order { IfOk result (λ r. reordering_order r ≡ speakers.order.items) }
    ensures size { IfOk result (λ r. reordering_size r ≡ part_size sound.now.interleaving) }
    ensures groups { IfOk result (λ r. reordering_groups r ≡ moved_groups speakers.order.items
        (sound.now.size / (sound.now.channels * part_size sound.now.interleaving))) }
    ensures fault { IfErr result (λ fault. fault ≡ Memory) }
{
    let size = neighbours(sound) as usize;
    let groups = speakers.moved_groups(sound.size / (sound.channels * size));
    Ok(Reordering::new(alloc, speakers.order, size, groups)?)
}

/// The first bytes, and the rest.
pub(crate) fn split(alloc: Global, bytes: Vec<u8>, at: usize) -> Result<(Vec<u8>, Vec<u8>), Fault>
    requires { at ≤ length bytes.items }
    ensures parts { IfOk result (λ p. p.0.items ++ p.1.items ≡ bytes.items) }
    ensures first { IfOk result (λ p. length p.0.items ≡ at) }
    ensures fault { IfErr result (λ fault. fault ≡ Memory) }
{
    let mut rest = Vec::new(alloc);
    rest.extend_from_slice(&bytes[at..])?;
    let mut first = bytes;
    first.truncate(at);
    Ok((first, rest))
}

// Creates a file, plays another to it, and keeps it, or gives it up after a fault.
fn speak_to<F: Folder, R: Read + Drop>(
    alloc: Global,
    folder: &mut F,
    spoken: Spoken<'_, R>,
    output: &str,
) -> Result<u64, CommandFault>
    ensures { SpeechComesTo R.remaining spoken.entry output.now (F.view folder.old) (F.view folder.new) result }
{
    let Ok(wave) = folder.create(output) else {
        return Err(CommandFault::WriteFailed);
    };
    let (played, wave) = speak(alloc, spoken, wave);
    let handed = hand_back(folder, output, &played, wave);
    match played {
        Ok(count) => match handed {
            Ok(()) => Ok(count),
            Err(_) => Err(CommandFault::WriteFailed),
        },
        Err(fault) => Err(CommandFault::Call(fault)),
    }
}

// Plays a file to one that was created, and returns that one.
fn speak<R: Read + Drop, W: Write>(
    alloc: Global,
    spoken: Spoken<'_, R>,
    wave: W,
) -> (Result<u64, Fault>, W)
    ensures { PlaysTo W.contents spoken.entry.project.now spoken.entry.range (ordered_spoken R.remaining spoken.entry)
        wave result.1 result.0 }
{
    let Spoken {
        project,
        range,
        before,
        tail,
        file,
        reordering,
    } = spoken;
    let sound = reordered(Cursor::new(tail).chain(file), reordering);
    let reader = Cursor::new(before).chain(sound);
    play_reader(alloc, project, range, reader, wave)
}

/// A file whose sound comes next, with its channels in another order.
pub(crate) fn reordered<R: Read>(file: R, reordering: Reordering) -> ReorderedFile<R>
    ensures { left_in_order R.remaining result ≡ reordered_known (reordering_order reordering)
        (reordering_size reordering) (reordering_groups reordering) (R.remaining file) }
{
    ReorderedFile::new(file, reordering)
}
