//! Plays a file of a folder to another, between its neighbours.

ghost use Rattle.std.specs.Prelude.{◌≡◌, IfErr, IfOk};
ghost use Rattle.folder_core.specs.Files.{IsGiven};
ghost use Rattle.wave_core.specs.Heads.{head_of};
ghost use Rattle.transfer_commands.specs.BetweenPlaying.{IsNotOpened, JoinComesTo, JoinsTo, PlayBetweenComesTo};
ghost use Rattle.transfer_commands.specs.Neighbours.{AreHeard, AreUnheard, IsHeardAfter, IsHeardBefore, IsUnheardAfter, IsUnheardBefore, fault_after, fault_before};
ghost use Rattle.transfer_commands.specs.Faults.{of_file};
ghost use Rattle.transfer_commands.specs.Opening.{left_of};
ghost use Rattle.transfer_commands.specs.PartPlaying.{DescribesRead};
ghost use Rattle.transfer_commands.specs.declared.between.BetweenFault.TheVariants as faults;
ghost use Rattle.transfer_commands.specs.declared.fault.CommandFault.TheVariants as commands;

use crate::fault::CommandFault;
use crate::neighbour::{NeighbourFault, after_of, before_of};
use crate::opened::{OpenedFile, open_prefix};
use crate::playing::read_project;
use chunk_core::{Inlet, Outlet};
use dsd_bits::Sound;
use fir_core::Taps;
use folder_core::{FileFault, Folder, hand_back};
use player_core::{Neighbours, WaveHead, play_between};
use request_core::decimator_of;
use std::alloc::Global;
use std::io::{Cursor, Read, Write};
use transfer_core::Fault;

/// The names of the files before and after one that is played, or of one of them.
#[derive(Clone, Copy)]
pub struct NeighbourNames<'a> {
    /// The recording before.
    pub previous: Option<&'a str>,
    /// The recording after.
    pub next: Option<&'a str>,
}

/// Between which files a recording is played, and to which form of file.
#[derive(Clone, Copy)]
pub struct BetweenAsked<'a> {
    /// The names of the files.
    pub around: NeighbourNames<'a>,
    /// Whether the header of the WAVE file has room for sizes of 64 bits (RF64, EBU Tech 3306).
    pub is_wide: bool,
}

/// Why a command that plays a recording between its neighbours is refused.
#[derive(Clone, Copy)]
pub enum BetweenFault {
    /// As of any command: for the project, the recording itself or the WAVE file, and out of memory.
    Command(CommandFault),
    /// For the recording before.
    Previous(NeighbourFault),
    /// For the recording after.
    Next(NeighbourFault),
}

impl From<CommandFault> for BetweenFault {
    ghost from_gives = { λ fault refused. refused ≡ faults.Command fault };

    fn from(fault: CommandFault) -> BetweenFault {
        BetweenFault::Command(fault)
    }
}

impl From<FileFault> for BetweenFault {
    ghost from_gives = { λ fault refused. refused ≡ faults.Command (of_file fault) };

    fn from(fault: FileFault) -> BetweenFault {
        BetweenFault::Command(CommandFault::from(fault))
    }
}

impl From<Fault> for BetweenFault {
    ghost from_gives = { λ fault refused. refused ≡ faults.Command (commands.Call fault) };

    fn from(fault: Fault) -> BetweenFault {
        BetweenFault::Command(CommandFault::Call(fault))
    }
}

/// The sound bytes before and after a recording that a filter reaches, a byte of each channel in turn.
#[derive(Drop)]
pub(crate) struct Edges {
    /// Hertz.
    pub(crate) rate: u32,
    /// How many channels there are.
    pub(crate) channels: usize,
    /// The sound bytes before.
    pub(crate) before: Vec<u8>,
    /// The sound bytes after.
    pub(crate) after: Vec<u8>,
}

/// By what a file is played between its neighbours, and to which form of file.
#[derive(Clone, Copy)]
pub(crate) struct JoinedBy<'a> {
    /// The filter.
    pub(crate) taps: &'a Taps,
    /// What it reaches of the neighbours.
    pub(crate) edges: &'a Edges,
    /// How the header of the WAVE file is written.
    pub(crate) head: WaveHead,
}

/// Plays a recording as a part of the one that it makes with the recordings before and after it, one of them or both:
/// the WAVE file has the frames whose place lies in the recording itself. So files that follow each other play without
/// a gap. Returns how many bytes the WAVE file has. After a fault of playing it may hold a prefix of what was due, but
/// a folder that keeps old files keeps an old one. The folder protects all files that were read before it is created.
///
/// Of the neighbours only the bits that the filter reaches are kept, and the folder passes over the others if it can.
/// They have the recording's rate and channels. The recording and the one before end with a whole byte of each channel,
/// as each DSDIFF file does, and so does the one after if it has fewer than 4096 bits of each.
///
/// Refusals before the WAVE file is created, in this order:
///
/// - `ReadFailed` of the project, `Project`, `NoDecimation`;
/// - of the recording `ReadFailed`, `FileUnread` for what is before its sound, `NotWholeBytes`;
/// - of the one before, and then of the one after, as `Previous` or `Next`: `ReadFailed`, `FileUnread` for what is
///   before its sound, `OtherRate`, `OtherChannels`, `NotWholeBytes`, `FileUnread` for what is after its sound.
///
/// Then `WriteFailed` if it can't be created, and those of [`play_between`](player_core::play_between). Out of memory
/// is always `Memory` of a command.
pub fn play_between_file<F: Folder>(
    alloc: Global,
    folder: &mut F,
    project: &str,
    input: &str,
    output: &str,
    asked: BetweenAsked<'_>,
) -> Result<u64, BetweenFault>
    ensures { PlayBetweenComesTo (head_of asked.entry.is_wide 0) project.now input.now output.now asked.entry.around
        (F.view folder.old) (F.view folder.new) result }
{
    let project = read_project(alloc, folder, project)?;
    let taps = decimator_of(alloc, &project)?;
    let opened = open_whole(alloc, folder, input)?;
    let edges = edges_of(alloc, folder, &taps, &opened.sound, asked.around)?;
    folder.protect();
    let joined = JoinedBy {
        taps: &taps,
        edges: &edges,
        head: WaveHead {
            is_wide: asked.is_wide,
            mask: 0,
        },
    };
    Ok(join_to(alloc, folder, joined, opened, output)?)
}

// The recording that is played. It has to end with a whole byte of each channel.
fn open_whole<F: Folder>(
    alloc: Global,
    folder: &mut F,
    name: &str,
) -> Result<OpenedFile<F::In>, CommandFault>
    ensures same { F.view folder.new ≡ F.view folder.old }
    ensures given { IfOk result (λ o. IsGiven (F.view folder.old) name.now (left_of F.In.remaining o)) }
    ensures described { IfOk result (λ o. DescribesRead name.now (F.view folder.old) o.sound) }
    ensures refused { IfErr result (IsNotOpened name.now (F.view folder.old)) }
{
    let opened = open_prefix(alloc, folder, name)?;
    if opened.sound.count % 8 != 0 {
        return Err(CommandFault::Call(Fault::NotWholeBytes));
    }
    Ok(opened)
}

/// What a filter reaches of the neighbours of a recording with this sound.
pub(crate) fn edges_of<F: Folder>(
    alloc: Global,
    folder: &mut F,
    taps: &Taps,
    sound: &Sound,
    around: NeighbourNames<'_>,
) -> Result<Edges, BetweenFault>
    ensures same { F.view folder.new ≡ F.view folder.old }
    ensures heard { IfOk result (AreHeard around.entry (F.view folder.old) sound.now taps.now) }
    ensures refused { IfErr result (AreUnheard around.entry (F.view folder.old) sound.now taps.now) }
{
    let before = previous_of(alloc, folder, taps, sound, around.previous)?;
    let after = next_of(alloc, folder, taps, sound, around.next)?;
    Ok(Edges {
        rate: sound.rate,
        channels: sound.channels,
        before,
        after,
    })
}

// What a filter reaches of the recording before, nothing if none is named.
fn previous_of<F: Folder>(
    alloc: Global,
    folder: &mut F,
    taps: &Taps,
    sound: &Sound,
    name: Option<&str>,
) -> Result<Vec<u8>, BetweenFault>
    ensures same { F.view folder.new ≡ F.view folder.old }
    ensures heard { IfOk result (λ bytes. IsHeardBefore name.entry (F.view folder.old) sound.now taps.now bytes.items) }
    ensures refused { IfErr result (IsUnheardBefore name.entry (F.view folder.old) sound.now) }
{
    let Some(name) = name else {
        return Ok(Vec::new(alloc));
    };
    match before_of(alloc, folder, taps, sound, name) {
        Ok(bytes) => Ok(bytes),
        Err(fault) => Err(of_previous(fault)),
    }
}

// What a filter reaches of the recording after, nothing if none is named.
fn next_of<F: Folder>(
    alloc: Global,
    folder: &mut F,
    taps: &Taps,
    sound: &Sound,
    name: Option<&str>,
) -> Result<Vec<u8>, BetweenFault>
    ensures same { F.view folder.new ≡ F.view folder.old }
    ensures heard { IfOk result (λ bytes. IsHeardAfter name.entry (F.view folder.old) sound.now taps.now bytes.items) }
    ensures refused { IfErr result (IsUnheardAfter name.entry (F.view folder.old) sound.now) }
{
    let Some(name) = name else {
        return Ok(Vec::new(alloc));
    };
    match after_of(alloc, folder, taps, sound, name) {
        Ok(bytes) => Ok(bytes),
        Err(fault) => Err(of_next(fault)),
    }
}

// The fault of the recording before, or out of memory.
fn of_previous(fault: NeighbourFault) -> BetweenFault
    ensures { result ≡ fault_before fault }
{
    match fault {
        NeighbourFault::Command(CommandFault::Call(Fault::Memory)) => {
            BetweenFault::Command(CommandFault::Call(Fault::Memory))
        }
        fault => BetweenFault::Previous(fault),
    }
}

// The fault of the recording after, or out of memory.
fn of_next(fault: NeighbourFault) -> BetweenFault
    ensures { result ≡ fault_after fault }
{
    match fault {
        NeighbourFault::Command(CommandFault::Call(Fault::Memory)) => {
            BetweenFault::Command(CommandFault::Call(Fault::Memory))
        }
        fault => BetweenFault::Next(fault),
    }
}

// Creates a file, plays another to it between its neighbours, and keeps it, or gives it up after a fault.
fn join_to<F: Folder>(
    alloc: Global,
    folder: &mut F,
    joined: JoinedBy<'_>,
    opened: OpenedFile<F::In>,
    output: &str,
) -> Result<u64, CommandFault>
    ensures { JoinComesTo F.In.remaining joined.entry.head joined.entry.taps.now joined.entry.edges.now opened output.now
        (F.view folder.old) (F.view folder.new) result }
{
    let Ok(wave) = folder.create(output) else {
        return Err(CommandFault::WriteFailed);
    };
    let OpenedFile {
        sound: _,
        prefix,
        file,
    } = opened;
    let (played, wave) = join(alloc, joined, Cursor::new(prefix).chain(file), wave);
    let handed = hand_back(folder, output, &played, wave);
    match played {
        Ok(count) => match handed {
            Ok(()) => Ok(count),
            Err(_) => Err(CommandFault::WriteFailed),
        },
        Err(fault) => Err(CommandFault::Call(fault)),
    }
}

/// Plays a reader's file to a writer between its neighbours, and returns that.
pub(crate) fn join<R: Read + Drop, W: Write>(
    alloc: Global,
    joined: JoinedBy<'_>,
    reader: R,
    wave: W,
) -> (Result<u64, Fault>, W)
    ensures { JoinsTo joined.entry.head joined.entry.taps.now joined.entry.edges.now
        (R.remaining reader) (W.contents wave) (W.contents result.1) result.0 }
{
    let JoinedBy { taps, edges, head } = joined;
    let around = Neighbours {
        rate: edges.rate,
        channels: edges.channels,
        before: &edges.before,
        after: &edges.after,
    };
    let mut inlet = Inlet::new(reader);
    let mut outlet = Outlet::new(wave);
    let played = play_between(alloc, taps, around, head, &mut inlet, &mut outlet);
    let wave = outlet.into_inner();
    match played {
        Ok(count) => (Ok(count), wave),
        Err(unread) => (Err(Fault::from(unread)), wave),
    }
}
