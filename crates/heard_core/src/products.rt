//! The sums of the products of taps and the errors of neighbouring windows, four taps a step.

ghost use Rattle.std.specs.Prelude.{◌≡◌, ◌+◌, ◌*◌, ◌^◌, ◌<◌, ◌≤◌, ℕ, All, drop, length, pos, slice_index_or, take, unsigned_abs};
ghost use Rattle.std.specs.List.{sum_by};
ghost use Rattle.heard_core.specs.Products.{AreAdded, IsAdded, IsSmall, IsSumOf, dot};

use std::simd::prelude::*;

/// Adds the products of four taps to four parts of a sum.
///
/// Taps and errors have room in 32 bits. Each is narrowed to these and widened again, so that the compiler sees that a
/// product reads no more of them: it is one instruction then.
#[inline(always)]
fn add_four(parts: [i64; 4], taps: &[i64], errors: &[i64]) -> [i64; 4]
    requires taps { 4 ≤ length taps.now }
    requires errors { 4 ≤ length errors.now }
    requires small_taps { All IsSmall taps.now }
    requires small_errors { All IsSmall errors.now }
    ensures { IsAdded (dot (take 4 taps.now) errors.now) parts result }
{
    let taps = i64x4::from_slice(taps).cast::<i32>().cast::<i64>();
    let errors = i64x4::from_slice(errors).cast::<i32>().cast::<i64>();
    (i64x4::from_array(parts) + taps * errors).to_array()
}

/// Adds the products of four taps to the sum of each window.
#[inline(always)]
fn add_group<const N: usize>(sums: &mut [[i64; 4]; N], taps: &[i64], errors: &[i64], step: usize)
    requires few { N ≤ 8 }
    requires taps { 4 ≤ length taps.now }
    requires errors { (w : ℕ) → w < N → w * step + 4 ≤ length errors.now }
    requires small_taps { All IsSmall taps.now }
    requires small_errors { All IsSmall errors.now }
    ensures len { length sums.new ≡ N }
    ensures sums { AreAdded N (λ w. dot (take 4 taps.now) (drop (w * step) errors.now)) sums.old sums.new }
{
    for w in 0..N {
        let start = w * step;
        sums[w] = add_four(sums[w], taps, &errors[start..]);
    }
}

/// The sum of the products of taps and the errors from the first one on, tap by tap.
fn sum_plainly(taps: &[i64], errors: &[i64]) -> i64
    requires room { length taps.now ≤ length errors.now }
    requires small_taps { sum_by unsigned_abs taps.now < 2 ^ 31 }
    requires small_errors { All IsSmall errors.now }
    ensures { result ≡ dot taps.now errors.now }
{
    let mut sum = 0;
    for k in 0..taps.len() {
        sum += taps[k] * errors[k];
    }
    sum
}

/// What the parts of a sum and the remaining products add up to.
fn finish(parts: [i64; 4], taps: &[i64], errors: &[i64]) -> i64
    requires room { length taps.now ≤ length errors.now }
    requires small_taps { sum_by unsigned_abs taps.now < 2 ^ 31 }
    requires small_errors { All IsSmall errors.now }
    ensures { IsSumOf parts (dot taps.now errors.now) result }
{
    i64x4::from_array(parts)
        .reduce_sum()
        .wrapping_add(sum_plainly(taps, errors))
}

/// The sums of the products of taps and the errors of neighbouring windows.
#[inline(always)]
pub(crate) fn sum_windows<const N: usize>(taps: &[i64], errors: &[i64], step: usize) -> [i64; N]
    requires some { 1 ≤ N }
    requires few { N ≤ 8 }
    requires room { (w : ℕ) → w < N → w * step + length taps.now ≤ length errors.now }
    requires small_taps { sum_by unsigned_abs taps.now < 2 ^ 31 }
    requires small_errors { All IsSmall errors.now }
    ensures { (w : ℕ) → w < N → slice_index_or result w (pos 0) ≡ dot taps.now (drop (w * step) errors.now) }
{
    let groups = taps.len() / 4;
    let mut parts = [[0; 4]; N];
    for i in 0..groups {
        add_group(&mut parts, &taps[4 * i..], &errors[4 * i..], step);
    }
    let mut sums = [0; N];
    for w in 0..N {
        sums[w] = finish(
            parts[w],
            &taps[4 * groups..],
            &errors[w * step + 4 * groups..],
        );
    }
    sums
}
