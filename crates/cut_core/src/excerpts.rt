//! What a cut reads of a take: the bits of its cues, and those that the bridges next to them read.

ghost use Rattle.std.specs.Prelude.{◌≡◌, ◌+◌, ◌<◌, ◌≤◌, ◌^◌, IfOk, length};
ghost use Rattle.splice_core.specs.Splices.{splice_content};
ghost use Rattle.cut_core.specs.Excerpts as specs;
ghost use Rattle.cut_core.specs.Excerpts.{excerpts_content, excerpts_of};

use crate::cues::{cue_at, cue_number};
use cost_core::reach_at;
use dsd_bits::{BitRange, Bits, Recording, stretches_of};
use splice_core::Splice;
use std::alloc::{AllocError, Global};

/// What a splice reads of one of its takes.
#[derive(Drop)]
pub struct Excerpts {
    /// The take without its bits: its channels are empty.
    pub recording: Recording,
    /// How many bits each channel of the take has.
    pub count: usize,
    /// For each cue of the splice, by [`ranges_of`], the bits of each channel that are read for it.
    pub stretches: Vec<Vec<Bits>>,
}

/// For each cue of a splice the range of bits that is read for it from the take of a number: the cue, the bits before
/// it that the target of the bridge there reads, and the bits after it likewise. For a cue of another take the range is
/// empty. Err is out of memory.
pub fn ranges_of(alloc: Global, splice: &Splice, number: usize) -> Result<Vec<BitRange>, AllocError>
    ensures { IfOk result (λ made. made.items ≡ specs.ranges_of (splice_content splice.now) number) }
{
    let mut ranges = Vec::new(alloc);
    for cue in 0..cue_number(splice) {
        ranges.push(range_of(splice, number, cue))?;
    }
    Ok(ranges)
}

// The range of bits that is read for a cue from the take of a number.
fn range_of(splice: &Splice, number: usize, cue: usize) -> BitRange
    requires { cue < length (splice_content splice.now).cues }
    ensures { result ≡ specs.range_of (splice_content splice.now) number cue }
{
    if cue_at(splice, cue).take != number {
        return BitRange { start: 0, stop: 0 };
    }
    let (_, after) = reach_at(splice, cue);
    BitRange {
        start: excerpt_start(splice, cue),
        stop: cue_at(splice, cue).stop + after,
    }
}

/// The first bit that is read for a cue.
pub(crate) fn excerpt_start(splice: &Splice, cue: usize) -> usize
    requires { cue < length (splice_content splice.now).cues }
    ensures { result ≡ specs.excerpt_start (splice_content splice.now) cue }
{
    cue_at(splice, cue)
        .start
        .saturating_sub(lead_at(splice, cue))
}

// How many bits before a cue the target of the bridge there reads.
fn lead_at(splice: &Splice, cue: usize) -> usize
    requires { cue < length (splice_content splice.now).cues }
    ensures { result ≡ specs.lead_at (splice_content splice.now) cue }
{
    if cue == 0 {
        return 0;
    }
    let (before, _) = reach_at(splice, cue - 1);
    before
}

/// What a splice reads of a recording, its take of a number. Err is out of memory.
pub fn take_excerpts(
    alloc: Global,
    splice: &Splice,
    number: usize,
    recording: Recording,
) -> Result<Excerpts, AllocError>
    ensures { IfOk result (λ h. excerpts_content h ≡ excerpts_of (splice_content splice.now) number recording) }
{
    let ranges = ranges_of(alloc, splice, number)?;
    let stretches = stretches_of(alloc, recording.channels(), &ranges)?;
    let count = recording.count();
    let recording = recording.into_silent(alloc)?;
    Ok(Excerpts {
        recording,
        count,
        stretches,
    })
}
