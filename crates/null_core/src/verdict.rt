//! What is heard of a master.

ghost use Rattle.std.specs.Prelude.{◌≡◌, ◌<◌, ◌≤◌, All, IfOk, IfSome, None, [], length, map};
ghost use Rattle.null_core.specs.Judging.{IsFirst};
ghost use Rattle.null_core.specs.Reading.{channels_of};
ghost use Rattle.null_core.specs.Verdicts as specs;
ghost use Rattle.dsd_bits.specs.Contents.{Content};
ghost use Rattle.null_core.specs.Verdicts.{AcceptsExactly, FitsFirst, IsAbove, IsGreatestIn, IsHeard, IsOutlineOf, IsVerdictBy, IsVerdictOn, JudgesAll, found_lists};

use crate::channel::Channel;
use crate::master::Master;
use crate::mixed::Mixed;
use crate::stretch::Stretch;
use crate::watch::{ChannelWatch, Watch};
use cut_core::{Shape, differ};
use dsd_bits::Recording;
use std::alloc::{AllocError, Global};

/// A place of a master that is too loud to be judged.
#[derive(Clone, Copy)]
pub struct LoudPlace {
    /// The number of the channel.
    pub channel: usize,
    /// The place.
    pub place: usize,
}

/// A verdict on a master: the first of these that applies.
#[derive(Clone, Copy)]
pub enum Verdict {
    /// It nulls: no residual at a judged place of a channel is above the limit. This is the greatest, 0 if no place is
    /// judged.
    Accepted(u64),
    /// It has another sample rate or number of channels than the takes.
    MasterShape {
        /// What the master has.
        found: Shape,
        /// What the takes have.
        wanted: Shape,
    },
    /// Its channels don't have as many bits as the mix has places.
    MasterLength {
        /// How many bits each of its channels has.
        found: usize,
        /// How many places the mix has.
        wanted: usize,
    },
    /// A place is too loud to be judged: its error is `2^31` or more in absolute value, and it is within reach of a
    /// judged place. This is the first such place of the first channel that has one.
    TooLoud {
        /// The number of the channel.
        channel: usize,
        /// The place.
        place: usize,
    },
    /// A residual is above the limit. This is the place of the first such stretch of the first channel that has one.
    Residual {
        /// The number of the channel.
        channel: usize,
        /// The place.
        place: usize,
    },
}

/// What is heard of a master.
#[derive(Drop)]
pub struct Heard {
    /// The stretches of each channel. There are none for a master that doesn't fit, or in which a place is too loud.
    pub stretches: Vec<Vec<Stretch>>,
    /// The verdict.
    pub verdict: Verdict,
}

/// Judges a master by a mix: how large the residual is at most that can be heard of it. `watch` is told how far this
/// has come. Err is out of memory.
pub fn judge<W: Watch>(
    alloc: Global,
    mixed: &Mixed,
    master: &Master<'_>,
    watch: &W,
) -> Result<Heard, AllocError>
    // Whichever takes were read, the verdict is the first that applies, and the stretches are those of each channel.
    ensures verdict { IfOk result (IsHeard mixed.now master.now) }
    // It is accepted exactly if it nulls with the mix's limit and no place is too loud.
    ensures exact { IfOk result (AcceptsExactly mixed.now master.now) }
{
    if let Some(verdict) = misfit(mixed, master.recording(), master.count()) {
        return Ok(unheard(alloc, verdict));
    }
    match judge_channels(alloc, mixed, master.channels(), watch)? {
        Ok(stretches) => {
            let verdict = verdict_by(mixed.limit(), &stretches);
            Ok(Heard { stretches, verdict })
        }
        Err(LoudPlace { channel, place }) => {
            Ok(unheard(alloc, Verdict::TooLoud { channel, place }))
        }
    }
}

/// A verdict without stretches.
pub(crate) fn unheard(alloc: Global, verdict: Verdict) -> Heard
    ensures stretches { result.stretches.items ≡ [] }
    ensures verdict { result.verdict ≡ verdict }
{
    Heard {
        stretches: Vec::new(alloc),
        verdict,
    }
}

/// Why a master can't be compared with a mix, if it can't: by the master without its bits, and how many bits each of its
/// channels has.
pub(crate) fn misfit(mixed: &Mixed, recording: &Recording, count: usize) -> Option<Verdict>
    ensures fits { result ≡ None → (r : Content) → IsOutlineOf recording.now count r → FitsFirst mixed.now r }
    ensures verdict { IfSome result (λ v. (r : Content) → IsOutlineOf recording.now count r → IsVerdictOn mixed.now r [] v) }
{
    let first = mixed.first();
    if differ(first, recording) {
        return Some(Verdict::MasterShape {
            found: Shape::of(recording),
            wanted: Shape::of(first),
        });
    }
    let wanted = mixed.length();
    if count != wanted {
        return Some(Verdict::MasterLength {
            found: count,
            wanted,
        });
    }
    None
}

// The stretches of each channel of a master, or the first place that is too loud of the first channel that has one.
fn judge_channels<W: Watch>(
    alloc: Global,
    mixed: &Mixed,
    channels: &[Channel<'_>],
    watch: &W,
) -> Result<Result<Vec<Vec<Stretch>>, LoudPlace>, AllocError>
    requires { length channels.now ≡ channels_of mixed.now }
    ensures { IfOk result (λ found. JudgesAll mixed.now channels.now (found_lists found)) }
{
    let mut stretches = Vec::new(alloc);
    for channel in 0..channels.len() {
        let watch = ChannelWatch {
            watch,
            channel,
            channels: channels.len(),
        };
        match mixed.judge_channel(alloc, channel, &channels[channel], &watch)? {
            Ok(found) => stretches.push(found)?,
            Err(place) => return Ok(Err(LoudPlace { channel, place })),
        }
    }
    Ok(Ok(stretches))
}

// The verdict by the stretches of all channels.
fn verdict_by(limit: u64, stretches: &[Vec<Stretch>]) -> Verdict
    ensures { IsVerdictBy limit (map (λ found. found.items) stretches.now) result }
{
    let mut greatest = 0;
    for channel in 0..stretches.len() {
        let found = stretches[channel].as_slice();
        if let Some(number) = first_above(limit, found) {
            return Verdict::Residual {
                channel,
                place: found[number].place,
            };
        }
        greatest = greatest.max(greatest_of(found));
    }
    Verdict::Accepted(greatest)
}

// The first stretch with a residual above the limit, if there is one.
fn first_above(limit: u64, stretches: &[Stretch]) -> Option<usize>
    ensures none { result ≡ None → All (λ s. s.residual ≤ limit) stretches.now }
    ensures first { IfSome result (IsFirst (IsAbove limit stretches.now)) }
{
    for number in 0..stretches.len() {
        if stretches[number].residual > limit {
            return Some(number);
        }
    }
    None
}

// The greatest residual of some stretches, 0 if there are none.
fn greatest_of(stretches: &[Stretch]) -> u64
    ensures { IsGreatestIn stretches.now result }
{
    let mut greatest = 0;
    for stretch in stretches {
        greatest = greatest.max(stretch.residual);
    }
    greatest
}
