//! What a mix reads of its takes: the bits of its clips, and those around them that their decoders reach.

ghost use Rattle.std.specs.Prelude.{◌≡◌, ◌/◌, ◌<◌, ◌≤◌, IfOk, length};
ghost use Rattle.clip_core.specs.Clips.{IsClipWithin, clip_content};
ghost use Rattle.clip_core.specs.Contents.{mix_content};
ghost use Rattle.null_core.specs.Asking.{taps_of};
ghost use Rattle.null_core.specs.Holding as specs;
ghost use Rattle.null_core.specs.Reading.{IsHolder};

use clip_core::{Clip, Mix};
use dsd_bits::BitRange;
use std::alloc::{AllocError, Global};

/// For each clip of a mix the range of bits that is read for it from the take of a number: the clip's own bits, and
/// those around them that its decoder reaches. The range is empty for a clip of another take, and if a clip before it
/// needs all of these bits too. Err is out of memory.
pub fn ranges_of(alloc: Global, mix: &Mix, number: usize) -> Result<Vec<BitRange>, AllocError>
    ensures { IfOk result (λ made. made.items ≡ specs.ranges_of (mix_content mix.now) number) }
{
    let mut ranges = Vec::new(alloc);
    for clip in 0..mix.clips.len() {
        ranges.push(range_of(mix, number, clip))?;
    }
    Ok(ranges)
}

// The range of bits that is read for a clip from the take of a number.
fn range_of(mix: &Mix, number: usize, clip: usize) -> BitRange
    requires { clip < length (mix_content mix.now).clips }
    ensures { result ≡ specs.range_of (mix_content mix.now) number clip }
{
    if clip_at(mix, clip).take != number || holder(mix, clip) != clip {
        return BitRange { start: 0, stop: 0 };
    }
    clip_range(mix, clip)
}

/// The first clip of the same take that needs all bits that a clip needs: what is read for that one serves both.
pub(crate) fn holder(mix: &Mix, clip: usize) -> usize
    requires { clip < length (mix_content mix.now).clips }
    ensures { IsHolder (mix_content mix.now) clip result }
{
    for earlier in 0..clip {
        if serves(mix, clip, earlier) {
            return earlier;
        }
    }
    clip
}

// Whether what another clip needs of its take has all that a clip needs.
fn serves(mix: &Mix, clip: usize, other: usize) -> bool
    requires clip { clip < length (mix_content mix.now).clips }
    requires other { other < length (mix_content mix.now).clips }
    ensures { result ≡ specs.serves (mix_content mix.now) clip other }
{
    let wanted = clip_range(mix, clip);
    let held = clip_range(mix, other);
    clip_at(mix, other).take == clip_at(mix, clip).take
        && held.start <= wanted.start
        && wanted.stop <= held.stop
}

/// The range of bits that a clip's sound needs of its take.
pub(crate) fn clip_range(mix: &Mix, clip: usize) -> BitRange
    requires { clip < length (mix_content mix.now).clips }
    ensures { result ≡ specs.clip_range (mix_content mix.now) clip }
{
    let here = clip_at(mix, clip);
    let reach = mix.decoders[here.decoder].len() / 2;
    BitRange {
        start: here.start.saturating_sub(reach),
        stop: here.start + here.length + reach,
    }
}

/// Clip `number` of a mix.
pub(crate) fn clip_at(mix: &Mix, number: usize) -> &Clip
    requires { number < length (mix_content mix.now).clips }
    ensures value { clip_content result.now ≡ specs.clip_at (mix_content mix.now) number }
    ensures fits { IsClipWithin (length (mix_content mix.now).takes) (length (mix_content mix.now).decoders) (clip_content result.now) }
{
    &mix.clips[number]
}
