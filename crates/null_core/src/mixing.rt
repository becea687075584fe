//! The mix at some places.

ghost use Rattle.std.specs.Prelude.{◌≡◌, ◌+◌, ◌-◌, ◌^◌, ◌<◌, ◌≤◌, ◌+ℤ◌, ◌*ℤ◌, OnOk, length, map, pos, replicate, slice_index_or, unsigned_abs};
ghost use Rattle.clip_core.specs.Gains.{ArePoints, gain};
ghost use Rattle.clip_core.specs.Lines.{IsLineOf, IsOnLine, line_gain, until};
ghost use Rattle.null_core.specs.Mixing.{AreFewParts, AreSmall, IsGained, IsPartAdded, mixes_from};
ghost use Rattle.null_core.specs.Parts.{IsPart, part_content};

use crate::part::Part;
use clip_core::{Line, Point, line_at};
use std::alloc::AllocError;

/// Memory in which the mix is made, which each chunk uses again.
#[derive(Drop)]
pub(crate) struct MixSpace {
    /// The sound of a part.
    pub sound: Vec<i32>,
    /// The mix.
    pub mixed: Vec<i64>,
}

/// Makes the mix at the places from `from` up to `to`: what all parts add there. Err is out of memory.
pub(crate) fn mix_between(
    space: &mut MixSpace,
    parts: &[Part<'_>],
    from: usize,
    to: usize,
) -> Result<(), AllocError>
    requires parts { AreFewParts (map part_content parts.now) }
    requires in_order { from ≤ to }
    requires inside { to ≤ 2 ^ 36 }
    ensures mix { OnOk result (space.new.mixed.items ≡ mixes_from (map part_content parts.now) from (to - from)) }
    ensures bound { OnOk result (AreSmall (2 ^ 60) space.new.mixed.items) }
{
    space.sound.resize(to - from, 0)?;
    space.mixed.clear();
    space.mixed.resize(to - from, 0)?;
    add_parts(parts, from, &mut space.sound, &mut space.mixed);
    Ok(())
}

// Makes zeros the mix at the places from `from` on. The sound is a place to work in.
fn add_parts(parts: &[Part<'_>], from: usize, sound: &mut [i32], mixed: &mut [i64])
    requires parts { AreFewParts (map part_content parts.now) }
    requires long { length sound.old ≡ length mixed.old }
    requires inside { from + length mixed.old ≤ 2 ^ 36 }
    requires zeros { mixed.old ≡ replicate (length mixed.old) (pos 0) }
    ensures mix { mixed.new ≡ mixes_from (map part_content parts.now) from (length mixed.old) }
    ensures bound { AreSmall (2 ^ 60) mixed.new }
{
    for part in parts {
        add_part(part, from, sound, mixed);
    }
}

// Adds what a part adds to the mix at the places from `from` on. The sound is a place to work in.
fn add_part(part: &Part<'_>, from: usize, sound: &mut [i32], mixed: &mut [i64])
    requires long { length sound.old ≡ length mixed.old }
    requires inside { from + length mixed.old ≤ 2 ^ 36 }
    requires small { AreSmall (2 ^ 61) mixed.old }
    ensures { IsPartAdded (part_content part.now) from mixed.old mixed.new }
{
    let _held = part.bits.len();
    let low = from.max(part.at);
    let high = (from + mixed.len()).min(part.at + part.size);
    if high <= low {
        return;
    }
    let k = low - part.at;
    let heard = &mut sound[..high - low];
    part.decoder.decode(part.bits, part.start + k, heard);
    add_gained(part.points, k, heard, &mut mixed[low - from..high - from]);
}

// Adds sound times the gain, from place `k` of a clip on.
fn add_gained(points: &[Point], k: usize, sound: &[i32], mixed: &mut [i64])
    requires points { ArePoints points.now }
    requires long { length sound.now ≡ length mixed.old }
    requires inside { k + length sound.now ≤ 2 ^ 36 }
    requires sound { AreSmall (2 ^ 28) sound.now }
    requires small { AreSmall (2 ^ 61) mixed.old }
    ensures { IsGained (gain points.now) k sound.now mixed.old mixed.new }
{
    let mut done = 0;
    while done < sound.len() {
        let line = line_at(points, k + done);
        let end = sound.len().min(line.until() - k);
        add_line(line, k + done, &sound[done..end], &mut mixed[done..end]);
        done = end;
    }
}

// The same for places of one line.
fn add_line(line: Line, k: usize, sound: &[i32], mixed: &mut [i64])
    requires begun { line.from.place ≤ k }
    requires on { k + length sound.now ≤ until line }
    requires long { length sound.now ≡ length mixed.old }
    requires sound { AreSmall (2 ^ 28) sound.now }
    requires small { AreSmall (2 ^ 61) mixed.old }
    ensures { IsGained (line_gain line) k sound.now mixed.old mixed.new }
{
    if sound.is_empty() {
        return;
    }
    if line.is_level() {
        let gain = line.gain_at(k);
        for i in 0..sound.len() {
            mixed[i] = with_sound(mixed[i], gain, sound[i]);
        }
    } else {
        for i in 0..sound.len() {
            mixed[i] = with_sound(mixed[i], line.gain_at(k + i), sound[i]);
        }
    }
}

// A mix and sound times a gain.
fn with_sound(mixed: i64, gain: i32, sound: i32) -> i64
    requires mixed { unsigned_abs mixed ≤ 2 ^ 61 }
    requires gain { unsigned_abs gain ≤ 2 ^ 26 }
    requires sound { unsigned_abs sound ≤ 2 ^ 28 }
    ensures { result ≡ mixed +ℤ (gain *ℤ sound) }
{
    mixed + i64::from(gain) * i64::from(sound)
}
