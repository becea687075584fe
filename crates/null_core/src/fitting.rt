//! Whether takes fit a mix.

ghost use Rattle.std.specs.Prelude.{◌≡◌, ◌+◌, ◌<◌, IfErr, IfOk, IfSome, MatchOption, None, false, length, map, true, ℕ};
ghost use Rattle.clip_core.specs.Clips.{gain_content};
ghost use Rattle.clip_core.specs.Contents.{mix_content};
ghost use Rattle.cut_core.specs.Excerpts.{excerpts_at, excerpts_content};
ghost use Rattle.null_core.specs.Fitting.{AreAlike, AreForChannels, ClipFits, EndsInside, IsFaultOf, IsLikeFirst, IsMisfit, IsUnlike, ShapesFit, read_shapes};
ghost use Rattle.null_core.specs.Holding as specs;
ghost use Rattle.null_core.specs.Judging.{IsFirst};

use crate::fault::MixedFault;
use crate::ranges::clip_at;
use clip_core::{Gains, Mix};
use cut_core::{Excerpts, differ};

/// Whether takes, as many as the mix has, fit it.
///
/// Refusals, in this order: `TakeMismatch` for the first take that isn't like take 0, then by rising clip `ClipOutside`
/// if it ends after the end of its take, and `ClipGains` if it has gains for another number of channels than the takes
/// have.
pub(crate) fn fits(mix: &Mix, takes: &[Excerpts]) -> Result<(), MixedFault>
    requires { length takes.now ≡ length (mix_content mix.now).takes }
    ensures fit { IfOk result (λ _. ShapesFit (mix_content mix.now) (read_shapes (map excerpts_content takes.now))) }
    ensures fault { IfErr result (IsFaultOf (mix_content mix.now) (read_shapes (map excerpts_content takes.now))) }
{
    if let Some(number) = first_unlike(takes) {
        return Err(MixedFault::TakeMismatch(number));
    }
    match first_misfit(mix, takes) {
        None => Ok(()),
        Some(clip) if ends_inside(mix, takes, clip) => Err(MixedFault::ClipGains(clip)),
        Some(clip) => Err(MixedFault::ClipOutside(clip)),
    }
}

// The first take that isn't like take 0, if there is one.
fn first_unlike(takes: &[Excerpts]) -> Option<usize>
    ensures { MatchOption result
        (AreAlike (length takes.now) (read_shapes (map excerpts_content takes.now)))
        (IsFirst (IsUnlike (length takes.now) (read_shapes (map excerpts_content takes.now)))) }
{
    for number in 0..takes.len() {
        if !is_like_first(takes, number) {
            return Some(number);
        }
    }
    None
}

// Whether a take has the rate and the number of channels of take 0.
fn is_like_first(takes: &[Excerpts], number: usize) -> bool
    requires { number < length takes.now }
    ensures yes { result ≡ true → IsLikeFirst (read_shapes (map excerpts_content takes.now)) number }
    ensures no { result ≡ false → IsLikeFirst (read_shapes (map excerpts_content takes.now)) number → ⊥ }
{
    !differ(
        &take_at(takes, 0).recording,
        &take_at(takes, number).recording,
    )
}

// The first clip that doesn't fit, if there is one.
fn first_misfit(mix: &Mix, takes: &[Excerpts]) -> Option<usize>
    requires { length takes.now ≡ length (mix_content mix.now).takes }
    ensures all { result ≡ None → (i : ℕ) → i < length (mix_content mix.now).clips → ClipFits (read_shapes (map excerpts_content takes.now)) (specs.clip_at (mix_content mix.now) i) }
    ensures first { IfSome result (IsFirst (IsMisfit (mix_content mix.now) (read_shapes (map excerpts_content takes.now)))) }
{
    for clip in 0..mix.clips.len() {
        if !does_clip_fit(mix, takes, clip) {
            return Some(clip);
        }
    }
    None
}

// Whether a clip fits.
fn does_clip_fit(mix: &Mix, takes: &[Excerpts], clip: usize) -> bool
    requires as_many { length takes.now ≡ length (mix_content mix.now).takes }
    requires there { clip < length (mix_content mix.now).clips }
    ensures yes { result ≡ true → ClipFits (read_shapes (map excerpts_content takes.now)) (specs.clip_at (mix_content mix.now) clip) }
    ensures no { result ≡ false → ClipFits (read_shapes (map excerpts_content takes.now)) (specs.clip_at (mix_content mix.now) clip) → ⊥ }
{
    let channels = take_at(takes, 0).recording.channels().len();
    ends_inside(mix, takes, clip) && are_for_channels(&clip_at(mix, clip).gains, channels)
}

// Whether a clip ends within its take.
fn ends_inside(mix: &Mix, takes: &[Excerpts], clip: usize) -> bool
    requires as_many { length takes.now ≡ length (mix_content mix.now).takes }
    requires there { clip < length (mix_content mix.now).clips }
    ensures yes { result ≡ true → EndsInside (read_shapes (map excerpts_content takes.now)) (specs.clip_at (mix_content mix.now) clip) }
    ensures no { result ≡ false → EndsInside (read_shapes (map excerpts_content takes.now)) (specs.clip_at (mix_content mix.now) clip) → ⊥ }
{
    let here = clip_at(mix, clip);
    here.start + here.length <= take_at(takes, here.take).count
}

// Whether gains are for this many channels.
fn are_for_channels(gains: &Gains, number: usize) -> bool
    ensures yes { result ≡ true → AreForChannels number (gain_content gains.now) }
    ensures no { result ≡ false → AreForChannels number (gain_content gains.now) → ⊥ }
{
    match gains {
        Gains::Each(lists) => lists.len() == number,
        _ => true,
    }
}

/// What was read of the take of a number.
pub(crate) fn take_at(takes: &[Excerpts], number: usize) -> &Excerpts
    requires { number < length takes.now }
    ensures { excerpts_content result.now ≡ excerpts_at (map excerpts_content takes.now) number }
{
    &takes[number]
}
