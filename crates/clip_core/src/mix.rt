//! Mixes.

ghost use Rattle.std.specs.Prelude.{◌≡◌, ◌^◌, ◌≤◌, All, map};
ghost use Rattle.clip_core.specs.Clips.{clip_content};
ghost use Rattle.clip_core.specs.Mixes.{IsMixing, clip_end, mix_length, mix_of};

use crate::clip::Clip;

/// Clips of takes, and how a master is compared with them, all within their limits. At most 64 clips have any one place.
#[derive(Drop)]
pub struct Mix {
    /// Full scale of decoded sound: 1 to `2^28`.
    pub unit: u32,
    /// The taps of a low-pass that passes what can be heard: an odd number, at most 65,535. Their absolute values add up
    /// to at most `2^31 - 1`, and the taps to more than 0.
    pub audible: Vec<i32>,
    /// The greatest residual that is accepted, below `2^63`.
    pub limit: u64,
    /// Places at multiples of it are judged: 1 to 64.
    pub every: usize,
    /// The names of the takes: 1 to 16.
    pub takes: Vec<String>,
    /// The taps of each low-pass that decodes a take's bits to its sound: 1 to 16 lists of an odd number, at most
    /// 65,535, whose absolute values add up to at most `2^28`.
    pub decoders: Vec<Vec<i32>>,
    /// The clips, in any order: 1 to 1024.
    pub clips: Vec<Clip>,
    ghost limits: { IsMixing (mix_of unit audible.items limit every takes.items decoders.items clips.items) },
}

/// How many places clips have in the mix, up to the last end of one. Each ends at most at `2^36`.
pub fn mix_length(clips: &[Clip]) -> usize
    requires { All (λ c. clip_end c ≤ 2 ^ 36) (map clip_content clips.now) }
    ensures value { result ≡ mix_length (map clip_content clips.now) }
    ensures bound { result ≤ 2 ^ 36 }
{
    let mut length = 0;
    for clip in clips {
        length = length.max(clip.at + clip.length);
    }
    length
}
