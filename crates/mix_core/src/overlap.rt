//! How many clips overlap.

ghost use Rattle.std.specs.Prelude.{◌≡◌, map};
ghost use Rattle.clip_core.specs.Clips.{clip_content};
ghost use Rattle.clip_core.specs.Mixes.{clips_at};
ghost use Rattle.mix_core.specs.ReadingMix.{are_apart};

use clip_core::Clip;

/// The most clips that may have any one place of the mix.
pub const MAX_OVERLAPPING: usize = 64;

/// Whether at most 64 clips have any one place. The most have the first place of one of them, so it counts there.
pub(crate) fn are_apart(clips: &[Clip]) -> bool
    ensures { result ≡ are_apart (map clip_content clips.now) }
{
    for clip in clips {
        if clips_at(clips, clip.at) > MAX_OVERLAPPING {
            return false;
        }
    }
    true
}

// How many clips have a place.
fn clips_at(clips: &[Clip], place: usize) -> usize
    ensures { result ≡ clips_at place (map clip_content clips.now) }
{
    let mut count = 0usize;
    for clip in clips {
        if clip.at <= place && place - clip.at < clip.length {
            count += 1;
        }
    }
    count
}
