//! Which bytes of a file's sound are not looked at.

ghost use Rattle.std.specs.Prelude.{◌≡◌, ◌+◌, ◌-◌, ◌*◌, ◌/◌, ◌≤◌, ◌^◌, ◌⊎◌, length};
ghost use Rattle.dsd_bits.specs.Sounds.{IsSound};
ghost use Rattle.folder_core.specs.GappedFiles.{left_but_gaps, zeroed_known};
ghost use Rattle.player_core.specs.Groups.{part_size};
ghost use Rattle.transfer_commands.specs.Gaps.{AreEmpty, HoldNoBitIn, HoldNoBitOf, HoldNoneBetween, LieAfter, LieBefore, LieInSound};

use dsd_bits::{BitRange, Sound};
use folder_core::{Folder, Gap, GappedFile, Gaps};

// A frame reads only bits from so many before its first on, up to as many after its last: filters have at most 4096
// taps.
const REACH: u64 = 4096;

// The bytes of a block of one channel.
const BLOCK: u64 = 4096;

/// The bytes of a file after a prefix that was read, with zeros for those of the gaps, which the folder passes over if
/// it can.
pub(crate) fn rest_but<'a, F: Folder>(
    folder: &'a F,
    prefix: &[u8],
    file: F::In,
    gaps: Gaps,
) -> GappedFile<'a, F>
    ensures { left_but_gaps F.In.remaining result ≡ zeroed_known gaps (length prefix.now) (F.In.remaining file) }
{
    GappedFile::new(folder, file, prefix.len() as u64, gaps)
}

/// No byte.
pub(crate) fn no_gaps() -> Gaps
    ensures { AreEmpty result }
{
    let none = Gap { start: 0, stop: 0 };
    Gaps {
        first: none,
        second: none,
    }
}

/// All of a sound.
pub(crate) fn sound_gap(sound: &Sound) -> Gaps
    ensures { LieInSound sound.now result }
{
    let start = sound.start as u64;
    let stop = start.saturating_add(sound.size as u64);
    Gaps {
        first: Gap { start, stop },
        second: Gap { start: stop, stop },
    }
}

/// What no frame from `start` to `stop - 1` reads of a sound, of which `factor` bits of each channel make a frame.
pub(crate) fn gaps_around(sound: &Sound, factor: u32, start: usize, stop: usize) -> Gaps
    ensures in_sound { LieInSound sound.now result }
    ensures unread { IsSound sound.now → HoldNoBitOf sound.now factor start stop result }
{
    let before = bytes_before(sound, first_bit(start, factor));
    let up_to = bytes_up_to(sound, last_bit(stop, factor));
    all_but(sound, before, up_to)
}

/// What holds no bit of a range of a sound.
pub(crate) fn gaps_beside(sound: &Sound, range: BitRange) -> Gaps
    ensures in_sound { LieInSound sound.now result }
    ensures unkept { IsSound sound.now → HoldNoBitIn sound.now range result }
{
    let before = bytes_before(sound, range.start as u64);
    let up_to = bytes_up_to(sound, range.stop as u64);
    all_but(sound, before, up_to)
}

// A bit before which no frame from this one on reads one.
fn first_bit(start: usize, factor: u32) -> u64
    ensures { result ≤ start * factor - 4096 }
{
    (start as u64)
        .saturating_mul(factor as u64)
        .saturating_sub(REACH)
}

// A bit after which no frame before this one reads one.
fn last_bit(stop: usize, factor: u32) -> u64
    ensures { (stop * factor + 4096 ≤ result) ⊎ (2 ^ 64 - 1 ≤ result) }
{
    (stop as u64)
        .saturating_mul(factor as u64)
        .saturating_add(REACH)
}

// All of a sound but for its bytes from one on, up to another that is not among them.
fn all_but(sound: &Sound, from: u64, to: u64) -> Gaps
    ensures in_sound { LieInSound sound.now result }
    ensures kept { HoldNoneBetween sound.now from to result }
{
    let begin = sound.start as u64;
    let end = begin.saturating_add(sound.size as u64);
    let last = begin.saturating_add(from);
    let first = begin.saturating_add(to);
    let stop = last.min(end);
    let start = first.min(end);
    Gaps {
        first: Gap { start: begin, stop },
        second: Gap { start, stop: end },
    }
}

// How many of the first bytes of a sound hold no bit of any channel from this one on.
fn bytes_before(sound: &Sound, bit: u64) -> u64
    ensures { LieAfter sound.now (bit / 8) result }
{
    let size = neighbours(sound);
    let group = size.saturating_mul(sound.channels as u64);
    (bit / 8 / size).saturating_mul(group)
}

// How many of the first bytes of a sound hold all bits of each channel up to this one.
fn bytes_up_to(sound: &Sound, bit: u64) -> u64
    ensures { LieBefore sound.now (bit / 8) result }
{
    let size = neighbours(sound);
    let group = size.saturating_mul(sound.channels as u64);
    (bit / 8 / size + 1).saturating_mul(group)
}

/// How many neighbouring bytes of a channel there are: one, or a block.
pub(crate) fn neighbours(sound: &Sound) -> u64
    ensures size { result ≡ part_size sound.now.interleaving }
    ensures known { (1 ≤ result) × (result ≤ 4096) }
{
    if sound.interleaving.has_blocks() {
        BLOCK
    } else {
        1
    }
}
