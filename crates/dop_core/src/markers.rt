//! The markers of DoP samples.

ghost use Rattle.std.specs.Prelude.{◌≡◌, ◌≢◌, ◌≤◌, ◌<◌, ◌+◌, ◌*◌, ◌^◌, ℕ, List, ◌++◌, IfSome, false, length, slice_index, true};
ghost use Rattle.native_core.specs.Native as Native;
ghost use Rattle.dop_core.specs.Markers.{AreMarks, plus};
ghost use Rattle.dop_core.specs.Reading.{broken_from, marked, phase};

use crate::fault::DopFault;
use crate::head::DopHead;

// The marker of frame 0, 2, 4 and so on.
const EVEN: u8 = 0x05;

// The marker of the others.
const ODD: u8 = 0xfa;

/// What is known of the markers of the frames that came so far.
#[derive(Clone, Copy)]
pub(crate) struct Marks {
    /// Which marker came first: 1 if it is 0xFA.
    pub first: usize,
    /// The first frame that hasn't its marker.
    pub broken: Option<usize>,
}

/// Whether the samples have the markers of their frames, beginning with either.
pub(crate) fn check_markers(head: &DopHead, sound: &[u8]) -> Result<(), DopFault>
    requires channels { 1 ≤ head.now.channels }
    requires size { 3 * (head.now.frames * head.now.channels) ≤ length sound.now }
    ensures { result ≡ marked head.now sound.now }
{
    if head.frames == 0 {
        return Ok(());
    }
    let first = usize::from(sound[2] == ODD);
    match broken_from(sound, head.channels, first, head.frames) {
        Some(frame) => Err(DopFault::BadMarker(frame as u64)),
        None => Ok(()),
    }
}

/// The first of so many frames that hasn't its marker in each sample. The first of them has number `first`.
pub(crate) fn broken_from(
    sound: &[u8],
    channels: usize,
    first: usize,
    frames: usize,
) -> Option<usize>
    requires channels { 1 ≤ channels }
    requires size { 3 * (frames * channels) ≤ length sound.now }
    requires first { first ≤ 2 ^ 40 }
    ensures exact { result ≡ broken_from channels first sound.now 0 (frames * channels) }
    ensures inside { IfSome result (λ frame. frame < frames) }
{
    for frame in 0..frames {
        if !is_marked(sound, channels, frame, marker(first + frame)) {
            return Some(frame);
        }
    }
    None
}

// Whether each sample of a frame has this marker.
fn is_marked(sound: &[u8], channels: usize, frame: usize, marker: u8) -> bool
    requires { 3 * ((frame + 1) * channels) ≤ length sound.now }
    ensures yes { result ≡ true → (c : ℕ) → c < channels
        → slice_index sound.now (3 * (frame * channels + c) + 2) ≡ marker }
    ensures no { result ≡ false → (c : ℕ) × (c < channels)
        × (slice_index sound.now (3 * (frame * channels + c) + 2) ≢ marker) }
{
    for c in 0..channels {
        if sound[3 * (frame * channels + c) + 2] != marker {
            return false;
        }
    }
    true
}

// The marker of a frame.
fn marker(frame: usize) -> u8
    ensures { result ≡ Native.marker frame }
{
    if frame % 2 == 0 { EVEN } else { ODD }
}

/// The same with a piece of so many frames that comes next, after `done` frames.
pub(crate) fn marks_on(
    marks: Marks,
    done: usize,
    piece: &[u8],
    channels: usize,
    frames: usize,
) -> Marks
    requires channels { 1 ≤ channels }
    requires some { 1 ≤ frames }
    requires size { length piece.now ≡ 3 * (frames * channels) }
    requires few { done ≤ 2 ^ 33 }
    requires either { marks.first ≤ 1 }
    ensures marks { (sound : List ℕ) → AreMarks channels marks done sound → length sound ≡ 3 * (done * channels)
        → AreMarks channels result (done + frames) (sound ++ piece.now) }
    ensures either { result.first ≤ 1 }
{
    let first = first_marker(marks.first, done, piece);
    let broken = match marks.broken {
        Some(frame) => Some(frame),
        None => after(broken_from(piece, channels, first + done, frames), done),
    };
    Marks { first, broken }
}

// Which marker came first, if a piece comes after `done` frames.
fn first_marker(first: usize, done: usize, piece: &[u8]) -> usize
    requires some { 3 ≤ length piece.now }
    requires first { first ≤ 1 }
    ensures begins { done ≡ 0 → result ≡ phase piece.now }
    ensures later { 1 ≤ done → result ≡ first }
    ensures either { result ≤ 1 }
{
    if done > 0 {
        return first;
    }
    usize::from(piece[2] == ODD)
}

// A frame after `done` frames.
fn after(frame: Option<usize>, done: usize) -> Option<usize>
    requires few { IfSome frame (λ f. f < 2 ^ 62) }
    requires done { done ≤ 2 ^ 33 }
    ensures { result ≡ plus done frame }
{
    match frame {
        Some(frame) => Some(done + frame),
        None => None,
    }
}
