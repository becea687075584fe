//! Plays a part of a file of a folder to another.

ghost use Rattle.std.specs.Prelude.{◌≡◌, ◌↔◌, IfErr, IfOk, IsTrue};
ghost use Rattle.folder_core.specs.Files.{IsGiven};
ghost use Rattle.sound_core.specs.Files.{LeadsToSound};
ghost use Rattle.transfer_commands.specs.Faults.{of_file};
ghost use Rattle.transfer_commands.specs.Gaps.{IsFactorOf};
ghost use Rattle.transfer_commands.specs.Opening.{left_of};
ghost use Rattle.transfer_commands.specs.Playing.{IsEnough};
ghost use Rattle.transfer_core.specs.Streaming.{part_range};
ghost use Rattle.wave_core.specs.Heads.{head_of};
ghost use Rattle.transfer_commands.specs.PartPlaying.{HasSpanInReport, HasSpanInSound, IsFound, IsMark, IsNotInReport, IsNotInSound, IsUnfound, NamesMark, PlayPartComesTo};
ghost use Rattle.transfer_commands.specs.declared.fault.CommandFault.TheVariants as commands;
ghost use Rattle.transfer_commands.specs.declared.parts.PartFault.TheVariants as faults;

use crate::fault::CommandFault;
use crate::gaps::gaps_around;
use crate::opened::{OpenedFile, open_prefix};
use crate::playing::{Source, play_to, read_project};
use crate::reporting::{Reported, open_past_sound};
use dsd_bits::Sound;
use folder_core::{FileFault, Folder};
use place_core::Place;
use player_core::{WaveHead, WaveRange};
use std::alloc::Global;
use transfer_core::{Fault, Span, SpanFault, frames_of, span_of};

/// Why a command that plays a part is refused.
#[derive(Clone, Copy)]
pub enum PartFault {
    /// As of any command.
    Command(CommandFault),
    /// There is no such part in the recording.
    Span(SpanFault),
}

impl From<CommandFault> for PartFault {
    ghost from_gives = { λ fault refused. refused ≡ faults.Command fault };

    fn from(fault: CommandFault) -> PartFault {
        PartFault::Command(fault)
    }
}

impl From<FileFault> for PartFault {
    ghost from_gives = { λ fault refused. refused ≡ faults.Command (of_file fault) };

    fn from(fault: FileFault) -> PartFault {
        PartFault::Command(CommandFault::from(fault))
    }
}

impl From<Fault> for PartFault {
    ghost from_gives = { λ fault refused. refused ≡ faults.Command (commands.Call fault) };

    fn from(fault: Fault) -> PartFault {
        PartFault::Command(CommandFault::Call(fault))
    }
}

impl From<SpanFault> for PartFault {
    ghost from_gives = { λ fault refused. refused ≡ faults.Span fault };

    fn from(fault: SpanFault) -> PartFault {
        PartFault::Span(fault)
    }
}

/// Which part of a recording is played, and to which form of file.
#[derive(Clone, Copy)]
pub struct PartAsked {
    /// From where to where.
    pub span: Span,
    /// Whether the header of the WAVE file has room for sizes of 64 bits (RF64, EBU Tech 3306).
    pub is_wide: bool,
}

/// A part that is played: the project's text, how many bits make a frame, the first frame, and the first after it.
#[derive(Clone, Copy)]
pub(crate) struct Part<'a> {
    pub(crate) project: &'a [u8],
    pub(crate) factor: u32,
    pub(crate) start: usize,
    pub(crate) stop: usize,
}

impl Part<'_> {
    ghost use Rattle.std.specs.Prelude.{◌≡◌};
    ghost use Rattle.transfer_core.specs.Streaming.{part_range};

    /// The frames of the part, with this head of their WAVE file.
    pub(crate) fn range(&self, head: WaveHead) -> WaveRange
        ensures { result ≡ part_range head self.now.start self.now.stop }
    {
        WaveRange {
            start: self.start,
            stop: Some(self.stop),
            head,
        }
    }
}

/// A part that was found, and its file, of which the prefix was read.
#[derive(Drop)]
pub(crate) struct FoundPart<'a, R> {
    pub(crate) part: Part<'a>,
    pub(crate) opened: OpenedFile<R>,
}

/// Reads the project, finds the part in the recording, creates the WAVE file and plays the part to it. Returns how many
/// bytes the WAVE file has. After a fault of playing the WAVE file may hold a prefix of what was due, but a folder that
/// keeps old files keeps an old one. The folder protects the project's file before it opens the recording.
///
/// Refusals before the WAVE file is created, in this order: `ReadFailed` of the project, `ReadFailed` of the recording,
/// `FileUnread`, `Project`, `NoDecimation`, `RateNotDivided`, `NoMark`, `PartOutside`, `PartReversed`. Then
/// `WriteFailed` if it can't be created, and those of [`play_stream`](transfer_core::play_stream). Out of memory is always `Memory`.
///
/// A recording that can be read again is opened and read through first, and then opened again to be played. Any other
/// is opened once: its part is found by what its first bytes say, so that a mark is not found in it (`ReadFailed`). The
/// folder passes over the sound that the part doesn't need if it can.
pub fn play_part_file<F: Folder>(
    alloc: Global,
    folder: &mut F,
    project: &str,
    input: &str,
    output: &str,
    asked: PartAsked,
) -> Result<u64, PartFault>
    ensures { PlayPartComesTo (head_of asked.is_wide 0) project.now input.now output.now asked.span (F.view folder.old) (F.view folder.new) result }
{
    let project = read_project(alloc, folder, project)?;
    let found = find_part(alloc, folder, &project, input, asked.span)?;
    let head = WaveHead {
        is_wide: asked.is_wide,
        mask: 0,
    };
    Ok(play_to(alloc, folder, source_of(found, head), output)?)
}

/// The part of a file that a span names, by a project's text, and the file, opened to be played.
pub(crate) fn find_part<'a, F: Folder>(
    alloc: Global,
    folder: &mut F,
    project: &'a [u8],
    input: &str,
    span: Span,
) -> Result<FoundPart<'a, F::In>, PartFault>
    ensures same { F.view folder.new ≡ F.view folder.old }
    ensures found { IfOk result (λ f. IsFound project.now input.now (F.view folder.old) span f.part) }
    ensures states { IfOk result (λ f. LeadsToSound f.opened.prefix.items f.opened.sound) }
    ensures given { IfOk result (λ f. IsGiven (F.view folder.old) input.now (left_of F.In.remaining f.opened)) }
    ensures refused { IfErr result (IsUnfound project.now input.now (F.view folder.old) span) }
{
    if folder.reopens(input) {
        let part = part_of(alloc, folder, project, input, span)?;
        let opened = open_prefix(alloc, folder, input)?;
        return Ok(FoundPart { part, opened });
    }
    if names_mark(span) {
        return Err(PartFault::Command(CommandFault::ReadFailed));
    }
    let opened = open_prefix(alloc, folder, input)?;
    let part = part_in(alloc, project, &opened.sound, span)?;
    Ok(FoundPart { part, opened })
}

// The part of a file that a span names, by a project's text. The file is read through.
fn part_of<'a, F: Folder>(
    alloc: Global,
    folder: &mut F,
    project: &'a [u8],
    input: &str,
    span: Span,
) -> Result<Part<'a>, PartFault>
    ensures same { F.view folder.new ≡ F.view folder.old }
    ensures found { IfOk result (IsFound project.now input.now (F.view folder.old) span) }
    ensures refused { IfErr result (IsUnfound project.now input.now (F.view folder.old) span) }
{
    let reported = open_past_sound(alloc, folder, input)?;
    part_by(alloc, project, &reported, span)
}

/// The part that a span names, by a project's text, of what is reported of a file.
pub(crate) fn part_by<'a>(
    alloc: Global,
    project: &'a [u8],
    reported: &Reported,
    span: Span,
) -> Result<Part<'a>, PartFault>
    ensures project { IfOk result (λ part. part.project.now ≡ project.now) }
    ensures factor { IfOk result (λ part. IsFactorOf part.project.now part.factor) }
    ensures found { IfOk result (λ part. HasSpanInReport project.now reported.now span part.start part.stop) }
    ensures refused { IfErr result (IsNotInReport project.now reported.now span) }
{
    let rate = reported.description.rate();
    let frames = frames_of(alloc, project, rate, reported.description.count())?;
    let (start, stop) = span_of(span, frames, rate, reported.description.marks())?;
    Ok(Part {
        project,
        factor: frames.factor,
        start,
        stop,
    })
}

// The part of a sound that a span names, by a project's text, whichever marks the recording has. A span that names one
// is refused.
fn part_in<'a>(
    alloc: Global,
    project: &'a [u8],
    sound: &Sound,
    span: Span,
) -> Result<Part<'a>, PartFault>
    ensures project { IfOk result (λ part. part.project.now ≡ project.now) }
    ensures factor { IfOk result (λ part. IsFactorOf part.project.now part.factor) }
    ensures found { IfOk result (λ part. HasSpanInSound project.now sound.now span part.start part.stop) }
    ensures refused { IfErr result (IsNotInSound project.now sound.now span) }
{
    let frames = frames_of(alloc, project, sound.rate, sound.count)?;
    let (start, stop) = span_of(span, frames, sound.rate, &[])?;
    Ok(Part {
        project,
        factor: frames.factor,
        start,
        stop,
    })
}

// Whether a span names a mark.
fn names_mark(span: Span) -> bool
    ensures { IsTrue result ↔ NamesMark span }
{
    is_mark(span.from) || is_mark(span.to)
}

// Whether a place is a mark.
fn is_mark(place: Option<Place>) -> bool
    ensures { IsTrue result ↔ IsMark place }
{
    match place {
        Some(Place::Mark(_)) => true,
        _ => false,
    }
}

// The file of a part that was found, to be played. The folder passes over the sound that the part doesn't need.
fn source_of<R>(found: FoundPart<'_, R>, head: WaveHead) -> Source<'_, R>
    requires states { LeadsToSound found.opened.prefix.items found.opened.sound }
    requires factor { IsFactorOf found.part.project.now found.part.factor }
    ensures project { result.project.now ≡ found.entry.part.project.now }
    ensures range { result.range ≡ part_range head found.entry.part.start found.entry.part.stop }
    ensures bytes { result.prefix.items ≡ found.entry.opened.prefix.items }
    ensures file { result.file ≡ found.entry.opened.file }
    ensures enough { IsEnough result }
{
    let FoundPart { part, opened } = found;
    let OpenedFile {
        sound,
        prefix,
        file,
    } = opened;
    Source {
        project: part.project,
        range: part.range(head),
        prefix,
        file,
        gaps: gaps_around(&sound, part.factor, part.start, part.stop),
    }
}
