//! Where a part of a recording begins and ends, in frames of what is played.

ghost use Rattle.std.specs.Prelude.{◌≡◌, ◌*◌, ◌/◌, ◌≤◌, ◌^◌, IfErr, IfOk, IfSome, IsNone, map};
ghost use Rattle.dsd_bits.specs.Contents.{mark_content};
ghost use Rattle.dsdiff_core.specs.MarkPlaces.{place_of};
ghost use Rattle.transfer_core.specs.Spans.{AreFramesOf, FramesRefused, IsFrameAt, IsFrameOr, IsNoMark, IsNoMarkIn, IsSpanOf, SpanRefused, from_start};

use crate::frames::PlayedFrames;
use dsd_bits::Mark;
use place_core::Place;
use request_core::{Fault, SpanFault, decimator_of};
use sound_core::StreamFault;
use std::alloc::Global;

/// Where a part begins and ends. Without a place it begins with the recording, or ends with it.
#[derive(Clone, Copy)]
pub struct Span {
    /// The place of the first frame.
    pub from: Option<Place>,
    /// The place of the first frame that is no longer played.
    pub to: Option<Place>,
}

/// The frames that a project plays of `count` bits of each channel at a rate in hertz.
///
/// Refusals, in this order: `Project`, `NoDecimation`, `RateNotDivided`. Out of memory is always `Memory`.
pub fn frames_of(
    alloc: Global,
    project: &[u8],
    rate: u32,
    count: usize,
) -> Result<PlayedFrames, Fault>
    ensures found { IfOk result (AreFramesOf project.now rate count) }
    ensures refused { IfErr result (FramesRefused project.now rate) }
{
    let taps = decimator_of(alloc, project)?;
    if !taps.rate_fits(rate) {
        return Err(Fault::Stream(StreamFault::RateNotDivided));
    }
    let factor = taps.factor();
    Ok(PlayedFrames {
        rate: rate / factor,
        factor,
        count: count.div_ceil(factor as usize),
    })
}

/// The first frame of a part, and the first after it: of each place the last frame that begins at it or before it, by
/// the rate of what is played. The recording has this rate in hertz, and these marks.
///
/// Refusals, in this order: `NoMark`, `PartOutside`, `PartReversed`.
pub fn span_of(
    span: Span,
    frames: PlayedFrames,
    rate: u32,
    marks: &[Mark],
) -> Result<(usize, usize), SpanFault>
    ensures found { IfOk result (λ part. IsSpanOf frames rate (map mark_content marks.now) span part.0 part.1) }
    ensures refused { IfErr result (SpanRefused frames rate (map mark_content marks.now) span) }
{
    let start = frame_or(0, span.from, frames, rate, marks)?;
    let stop = frame_or(frames.count as u128, span.to, frames, rate, marks)?;
    let count = frames.count as u128;
    if count < start || count < stop {
        return Err(SpanFault::PartOutside);
    }
    if stop < start {
        return Err(SpanFault::PartReversed);
    }
    Ok((start as usize, stop as usize))
}

// The frame at a place, or another where none is named.
fn frame_or(
    usual: u128,
    place: Option<Place>,
    frames: PlayedFrames,
    rate: u32,
    marks: &[Mark],
) -> Result<u128, SpanFault>
    ensures found { IfOk result (IsFrameOr frames rate (map mark_content marks.now) usual place) }
    ensures none { IfErr result (λ f. (f ≡ SpanFault.NoMark) × IsNoMarkIn (map mark_content marks.now) place) }
{
    match place {
        Some(place) => frame_at(place, frames, rate, marks).ok_or(SpanFault::NoMark),
        None => Ok(usual),
    }
}

// The frame at a place; none where it is a mark that isn't there.
fn frame_at(place: Place, frames: PlayedFrames, rate: u32, marks: &[Mark]) -> Option<u128>
    ensures found { IfSome result (IsFrameAt frames rate (map mark_content marks.now) place) }
    ensures none { IsNone result → IsNoMark (map mark_content marks.now) place }
{
    match place {
        Place::Time(nanoseconds) => {
            Some(nanoseconds as u128 * frames.rate as u128 / 1_000_000_000)
        }
        Place::Frame(number) => Some(number as u128),
        Place::Mark(number) => {
            if number >= marks.len() as u64 {
                return None;
            }
            let at = bits_before(&marks[number as usize], rate);
            Some((at / frames.factor as u64) as u128)
        }
    }
}

// How many bits of a channel lie before a mark.
fn bits_before(mark: &Mark, rate: u32) -> u64
    ensures { result ≡ from_start (place_of (mark_content mark.now) rate) }
{
    counted(dsdiff_core::place(mark, rate))
}

// A place, or 0 for one before the beginning.
fn counted(at: i64) -> u64
    ensures { result ≡ from_start at }
{
    if at < 0 {
        return 0;
    }
    at as u64
}
