//! What is kept of a recording that is before or after another.

ghost use Rattle.std.specs.Prelude.{◌≡◌, ◌⊎◌, ◌+◌, ◌*◌, ◌≤◌, ◌↔◌, ℕ, IfErr, IfOk, IsTrue};
ghost use Rattle.fir_core.specs.Decimator.{IsWithinLimits};
ghost use Rattle.folder_core.specs.Files.{IsGiven};
ghost use Rattle.sound_core.specs.Files.{LeadsToSound};
ghost use Rattle.transfer_commands.specs.Neighbours.{AreAlike, EndsAfter, EndsBefore, HearsAfter, HearsBefore, IsEdgeLeft, IsLacedEdge, IsNoneFor, IsWholeRange, KeepsLeft, KeepsSome};
ghost use Rattle.transfer_commands.specs.Opening.{left_of};
ghost use Rattle.transfer_commands.specs.Outlining.{IsUnoutlinedLeft, IsUnread};
ghost use Rattle.transfer_commands.specs.declared.neighbour.NeighbourFault.TheVariants as faults;

use crate::fault::CommandFault;
use crate::gaps::{gaps_beside, rest_but};
use crate::opened::{OpenedFile, open_prefix};
use crate::outlining::refusal_of;
use chunk_core::Inlet;
use dsd_bits::{BitRange, Sound, lace_bytes};
use fir_core::Taps;
use folder_core::Folder;
use sound_core::{Kept, read_stretches};
use std::alloc::Global;
use std::io::{Cursor, Read};
use transfer_core::Fault;

// A filter has at most so many taps, and reaches fewer bits before and after a frame.
const REACH: usize = 4096;

/// Why a file can't be the neighbour of another.
#[derive(Clone, Copy)]
pub enum NeighbourFault {
    /// It is not read, or holds no recording, as for any command.
    Command(CommandFault),
    /// It has another rate.
    OtherRate,
    /// It has another number of channels.
    OtherChannels,
    /// It doesn't end with a whole byte of each channel.
    NotWholeBytes,
}

impl From<CommandFault> for NeighbourFault {
    ghost from_gives = { λ fault refused. refused ≡ faults.Command fault };

    fn from(fault: CommandFault) -> NeighbourFault {
        NeighbourFault::Command(fault)
    }
}

/// What a filter reaches of the recording before a sound: its last sound bytes, a byte of each channel in turn, from a
/// frame on.
pub(crate) fn before_of<F: Folder>(
    alloc: Global,
    folder: &mut F,
    taps: &Taps,
    sound: &Sound,
    name: &str,
) -> Result<Vec<u8>, NeighbourFault>
    ensures same { F.view folder.new ≡ F.view folder.old }
    ensures heard { IfOk result (λ bytes. HearsBefore name.now (F.view folder.old) sound.now taps.now bytes.items) }
    ensures refused { IfErr result (IsNoneFor EndsBefore name.now (F.view folder.old) sound.now) }
{
    let opened = open_like(alloc, folder, name, sound)?;
    let count = opened.sound.count;
    if count % 8 != 0 {
        return Err(NeighbourFault::NotWholeBytes);
    }
    let range = BitRange {
        start: tail_start(taps, count),
        stop: count,
    };
    Ok(edge_of(alloc, folder, opened, range)?)
}

/// What a filter reaches of the recording after a sound: its first sound bytes, a byte of each channel in turn.
pub(crate) fn after_of<F: Folder>(
    alloc: Global,
    folder: &mut F,
    taps: &Taps,
    sound: &Sound,
    name: &str,
) -> Result<Vec<u8>, NeighbourFault>
    ensures same { F.view folder.new ≡ F.view folder.old }
    ensures heard { IfOk result (λ bytes. HearsAfter name.now (F.view folder.old) sound.now taps.now bytes.items) }
    ensures refused { IfErr result (IsNoneFor EndsAfter name.now (F.view folder.old) sound.now) }
{
    let _ = taps.factor();
    let opened = open_like(alloc, folder, name, sound)?;
    let stop = opened.sound.count.min(REACH);
    if stop % 8 != 0 {
        return Err(NeighbourFault::NotWholeBytes);
    }
    let range = BitRange { start: 0, stop };
    Ok(edge_of(alloc, folder, opened, range)?)
}

// The first bit that is kept of channels of so many: that of a frame before which the filter reads none for a frame
// after them.
fn tail_start(taps: &Taps, count: usize) -> usize
    ensures frame { (m : ℕ) × (result ≡ m * taps.now.factor) × ((m ≡ 0) ⊎ (result + 4096 ≤ count)) }
    ensures few { result ≤ count }
    ensures limits { IsWithinLimits taps.now }
{
    let factor = taps.factor() as usize;
    count.saturating_sub(REACH) / factor * factor
}

// Opens a file that has the rate and the channels of a sound.
fn open_like<F: Folder>(
    alloc: Global,
    folder: &mut F,
    name: &str,
    sound: &Sound,
) -> Result<OpenedFile<F::In>, NeighbourFault>
    ensures same { F.view folder.new ≡ F.view folder.old }
    ensures states { IfOk result (λ o. LeadsToSound o.prefix.items o.sound) }
    ensures given { IfOk result (λ o. IsGiven (F.view folder.old) name.now (left_of F.In.remaining o)) }
    ensures alike { IfOk result (λ o. AreAlike sound.now o.sound) }
    ensures refused_before { IfErr result (IsNoneFor EndsBefore name.now (F.view folder.old) sound.now) }
    ensures refused_after { IfErr result (IsNoneFor EndsAfter name.now (F.view folder.old) sound.now) }
{
    let opened = open_prefix(alloc, folder, name)?;
    if opened.sound.rate != sound.rate {
        return Err(NeighbourFault::OtherRate);
    }
    if opened.sound.channels != sound.channels {
        return Err(NeighbourFault::OtherChannels);
    }
    Ok(opened)
}

// The sound bytes of a range of a file that was opened, a byte of each channel in turn. It is read to its end.
fn edge_of<F: Folder>(
    alloc: Global,
    folder: &F,
    opened: OpenedFile<F::In>,
    range: BitRange,
) -> Result<Vec<u8>, CommandFault>
    requires states { LeadsToSound opened.prefix.items opened.sound }
    requires range { IsWholeRange opened.sound.count range }
    ensures edge { IfOk result (λ bytes. IsEdgeLeft (left_of F.In.remaining opened) opened.sound range bytes.items) }
    ensures fault { IfErr result (IsUnoutlinedLeft (left_of F.In.remaining opened)) }
{
    let sound = opened.sound;
    let kept = kept_of(alloc, folder, opened, range)?;
    laced_of(alloc, &kept, &sound, range)
}

// A file that was opened without its sound, and a range of that. The folder passes over the rest of it if it can.
fn kept_of<F: Folder>(
    alloc: Global,
    folder: &F,
    opened: OpenedFile<F::In>,
    range: BitRange,
) -> Result<Kept, CommandFault>
    requires states { LeadsToSound opened.prefix.items opened.sound }
    ensures kept { IfOk result (KeepsLeft (left_of F.In.remaining opened) range) }
    ensures fault { IfErr result (IsUnoutlinedLeft (left_of F.In.remaining opened)) }
{
    let OpenedFile {
        sound,
        prefix,
        file,
    } = opened;
    let gaps = gaps_beside(&sound, range);
    let rest = rest_but(folder, &prefix, file, gaps);
    keep_reader(alloc, Cursor::new(prefix).chain(rest), range)
}

// The same of a reader's file.
fn keep_reader<R: Read + Drop>(
    alloc: Global,
    reader: R,
    range: BitRange,
) -> Result<Kept, CommandFault>
    ensures kept { IfOk result (KeepsLeft (R.remaining reader) range) }
    ensures fault { IfErr result (IsUnoutlinedLeft (R.remaining reader)) }
{
    let mut inlet = Inlet::new(reader);
    match read_stretches(alloc, &mut inlet, &[range]) {
        Ok(kept) => Ok(kept),
        Err(unread) => Err(refusal_of(unread)),
    }
}

// The sound bytes of a range that was kept, if the file still had this sound.
fn laced_of(
    alloc: Global,
    kept: &Kept,
    sound: &Sound,
    range: BitRange,
) -> Result<Vec<u8>, CommandFault>
    requires kept { KeepsSome range kept.now }
    requires range { IsWholeRange sound.now.count range }
    ensures laced { IfOk result (λ bytes. IsLacedEdge kept.now sound.now bytes.items) }
    ensures fault { IfErr result IsUnread }
{
    if !is_same(&kept.outline.sound, sound) {
        return Err(CommandFault::ReadFailed);
    }
    match lace_bytes(alloc, &kept.stretches[0]) {
        Ok(bytes) => Ok(bytes),
        Err(_) => Err(CommandFault::Call(Fault::Memory)),
    }
}

// Whether two sounds have the same rate, channels and length.
fn is_same(one: &Sound, other: &Sound) -> bool
    ensures { IsTrue result ↔ AreAlike one.now other.now × (other.now.count ≡ one.now.count) }
{
    other.rate == one.rate && other.channels == one.channels && other.count == one.count
}
