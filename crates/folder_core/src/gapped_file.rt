//! A file of a folder that is read except for some gaps.

ghost use Rattle.std.specs.Prelude.{◌≡◌, ◌+◌, ◌<◌, ◌≤◌, ◌⊎◌, IfOk, IsFalse, IsTrue, length};
ghost use Rattle.std.specs.Io.{ReadsAtMost};
ghost use Rattle.std.specs.Io.KnownBytes.{ReadConsumes};
ghost use Rattle.folder_core.specs.GappedFiles.{HasSameGaps, IsMovedOn, LiesBeside, LiesInGap, LiesOutside, gapped_file, gapped_place, gaps_of, left_but_gaps};

use crate::folder::Folder;
use std::io;
use std::io::Read;

/// A stretch of a file, from a byte on up to another that isn't part of it.
#[derive(Clone, Copy)]
pub struct Gap {
    /// The place of its first byte.
    pub start: u64,
    /// The place of the first byte after it.
    pub stop: u64,
}

/// Two stretches of a file that are passed over, the first of them before the second.
#[derive(Clone, Copy)]
pub struct Gaps {
    /// The first.
    pub first: Gap,
    /// The second.
    pub second: Gap,
}

/// A file of a folder that is read, for who needs no byte of two gaps: these the folder passes over if it can, and they
/// are read as zeros. Each other byte is read as it is.
#[derive(Drop)]
pub struct GappedFile<'a, F: Folder> {
    folder: &'a F,
    file: F::In,
    place: u64,
    gaps: Gaps,
}

impl<'a, F: Folder> GappedFile<'a, F> {
    /// A file of this folder, which has the bytes from a place on left.
    pub fn new(folder: &'a F, file: F::In, place: u64, gaps: Gaps) -> Self
        ensures file { gapped_file result ≡ file }
        ensures place { gapped_place result ≡ place }
        ensures gaps { gaps_of result ≡ gaps }
    {
        GappedFile {
            folder,
            file,
            place,
            gaps,
        }
    }
}

impl<F: Folder> Read for GappedFile<'_, F> {
    ghost remaining = { λ g. left_but_gaps F.In.remaining g };

    // Each read ends where a gap begins or ends, at the latest.
    fn read(&mut self, buffer: &mut [u8]) -> io::Result<usize>
        ensures bound { ReadsAtMost result buffer.new }
        ensures bytes { ReadConsumes (left_but_gaps F.In.remaining self.old) (left_but_gaps F.In.remaining self.new) result
            buffer.new }
        ensures gaps { gaps_of self.new ≡ gaps_of self.old }
        ensures place { IsMovedOn (gapped_place self.old) (gapped_place self.new) result }
        ensures part { IfOk result (λ count. LiesInGap (gaps_of self.old) (gapped_place self.old) count
            ⊎ LiesOutside (gaps_of self.old) (gapped_place self.old) count) }
    {
        let step = step_at(self.gaps, self.place, buffer.len());
        let (part, _) = buffer.split_at_mut(step.size);
        if step.is_passed {
            self.pass_gap(part)
        } else {
            self.read_outside(part)
        }
    }
}

impl<F: Folder> GappedFile<'_, F> {
    // Passes over bytes of a gap, which are read as zeros.
    fn pass_gap(&mut self, buffer: &mut [u8]) -> io::Result<usize>
        requires { LiesInGap (gaps_of self.old) (gapped_place self.old) (length buffer.old) }
        ensures bound { ReadsAtMost result buffer.new }
        ensures long { length buffer.new ≡ length buffer.old }
        ensures bytes { ReadConsumes (left_but_gaps F.In.remaining self.old) (left_but_gaps F.In.remaining self.new) result
            buffer.new }
        ensures gaps { gaps_of self.new ≡ gaps_of self.old }
        ensures place { IsMovedOn (gapped_place self.old) (gapped_place self.new) result }
    {
        let got = self.folder.pass(&mut self.file, buffer);
        buffer.fill(0);
        self.place = moved_on(self.gaps, self.place, &got);
        got
    }

    // Reads bytes that lie in no gap.
    fn read_outside(&mut self, buffer: &mut [u8]) -> io::Result<usize>
        requires { LiesOutside (gaps_of self.old) (gapped_place self.old) (length buffer.old) }
        ensures bound { ReadsAtMost result buffer.new }
        ensures long { length buffer.new ≡ length buffer.old }
        ensures bytes { ReadConsumes (left_but_gaps F.In.remaining self.old) (left_but_gaps F.In.remaining self.new) result
            buffer.new }
        ensures gaps { gaps_of self.new ≡ gaps_of self.old }
        ensures place { IsMovedOn (gapped_place self.old) (gapped_place self.new) result }
    {
        let got = self.file.read(buffer);
        self.place = moved_on(self.gaps, self.place, &got);
        got
    }
}

// The place after a read that came to this. The greatest place stands for those after it, too: no gap reaches it.
fn moved_on(gaps: Gaps, place: u64, got: &io::Result<usize>) -> u64
    ensures place { IsMovedOn place result got.now }
    ensures same { IfOk got.now (λ count. HasSameGaps gaps (place + count) result) }
{
    // Both ends are known to be numbers of 64 bits by this.
    let _last = gaps.first.stop.max(gaps.second.stop);
    match got {
        Ok(count) => place.saturating_add(*count as u64),
        Err(_) => place,
    }
}

// How many bytes are read at once, or passed over.
#[derive(Clone, Copy)]
struct Step {
    size: usize,
    is_passed: bool,
}

// The next step from a place on, with room for some bytes. Only what lies in a gap is passed over, and nothing of a
// gap is read.
fn step_at(gaps: Gaps, place: u64, room: usize) -> Step
    ensures few { result.size ≤ room }
    ensures some { 0 < room → 0 < result.size }
    ensures passed { IsTrue result.is_passed → LiesInGap gaps place result.size }
    ensures read { IsFalse result.is_passed → LiesOutside gaps place result.size }
{
    if is_in(gaps.first, place) {
        return Step {
            size: at_most(room, gaps.first.stop - place),
            is_passed: true,
        };
    }
    if is_in(gaps.second, place) {
        return Step {
            size: at_most(room, gaps.second.stop - place),
            is_passed: true,
        };
    }
    let before = bytes_before(gaps.first, place).min(bytes_before(gaps.second, place));
    Step {
        size: at_most(room, before),
        is_passed: false,
    }
}

// Whether a place lies in a gap.
fn is_in(gap: Gap, place: u64) -> bool
    ensures inside { IsTrue result → (gap.start ≤ place) × (place < gap.stop) }
    ensures beside { IsFalse result → (place < gap.start) ⊎ (gap.stop ≤ place) }
{
    gap.start <= place && place < gap.stop
}

// How many bytes lie from a place up to a gap; if the gap doesn't come any more, as many as there may be.
fn bytes_before(gap: Gap, place: u64) -> u64
    ensures some { 0 < result }
    ensures few { place < gap.start → place + result ≤ gap.start }
{
    if place < gap.start {
        gap.start - place
    } else {
        u64::MAX
    }
}

// As many as there is room for, at most this many.
fn at_most(room: usize, most: u64) -> usize
    ensures few { (result ≤ room) × (result ≤ most) }
    ensures some { 0 < room → 0 < most → 0 < result }
{
    if (room as u64) < most {
        room
    } else {
        most as usize
    }
}
