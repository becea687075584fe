//! Samples as numbers.

ghost use Rattle.std.specs.Prelude.{◌≡◌, ◌+◌, ◌*◌, ◌/◌, ◌≤◌, ◌++◌, ◌⊎◌, List, ℕ, drop, length, min, take};
ghost use Rattle.wave_core.specs.Contents.{IsSample};
ghost use Rattle.wave_core.specs.Texts.{sample_bytes};
ghost use Rattle.dsdarc_c.specs.Numbers.{AreSamplesIn, AreWholeSamples, first_samples, sample_size};
ghost use Rattle.dsdarc_c.specs.Pushing.{IsPushing};
ghost use Rattle.dsdarc_c.specs.Whole.{IsPrefixOfFrames, PlaysPushedFile, WaitsWhole, waiting};

use crate::pushing::Pushing;

/// Takes the samples of frames that are due, as numbers: how many, as many as there are and as fit.
pub(crate) fn pull_numbers(p: &mut Pushing, out: &mut [i32]) -> usize
    requires { IsPushing p.old }
    ensures keeps { IsPushing p.new }
    ensures few { result ≤ length out.old }
    // As many are given as fit of those that wait whole.
    ensures count { result ≡ min (length out.old) (length (waiting p.old) / (p.old.taps.width / 8)) }
    // They are the samples that the first of the bytes that wait hold.
    ensures given { AreSamplesIn p.old.taps.width (first_samples p.old result) (take result out.new) }
    ensures others { drop result out.new ≡ drop result out.old }
    // Their bytes are the next of the file's frames.
    ensures plays { (file : List ℕ) (start : ℕ) (pulled : List ℕ) → PlaysPushedFile file start pulled p.old
        → PlaysPushedFile file start (pulled ++ first_samples p.old result) p.new }
    ensures prefix { (file : List ℕ) (start : ℕ) (pulled : List ℕ) → PlaysPushedFile file start pulled p.old
        → IsPrefixOfFrames p.old.taps file start (pulled ++ first_samples p.old result) }
    // The bytes of as many are taken, and nothing else changes.
    ensures same { p.new ≡ record p.old { pulled = p.old.pulled + sample_size p.old result } }
    // If whole frames wait and fit, whole frames are taken, and whole frames wait on.
    ensures whole { WaitsWhole p.old → AreWholeSamples p.old.stated (length out.old)
        → AreWholeSamples p.old.stated result × WaitsWhole p.new }
{
    let size = if p.taps.width() == 16 { 2 } else { 3 };
    let (_, left) = p.pending.split_at(p.pulled);
    let count = (left.len() / size).min(out.len());
    for place in 0..count {
        out[place] = number_at(left, place * size, size);
    }
    p.pulled += count * size;
    count
}

// The sample of two or three bytes at a place, the lowest first.
fn number_at(bytes: &[u8], at: usize, size: usize) -> i32
    requires size { (size ≡ 2) ⊎ (size ≡ 3) }
    requires within { at + size ≤ length bytes.now }
    ensures in_range { IsSample (size * 8) result }
    ensures written { sample_bytes (size * 8) result ≡ take size (drop at bytes.now) }
{
    let top = i32::from(bytes[at + size - 1]);
    let low = i32::from(bytes[at]);
    if size == 2 {
        let value = top * 256 + low;
        return if top < 128 { value } else { value - 65_536 };
    }
    let value = top * 65_536 + i32::from(bytes[at + 1]) * 256 + low;
    if top < 128 { value } else { value - 16_777_216 }
}
