//! What can be heard of errors.

ghost use Rattle.std.specs.Prelude.{◌≡◌, ◌+◌, ◌*◌, ◌^◌, ◌<◌, ◌≤◌, ℕ, All, IfOk, drop, length, pos, slice_index_or, unsigned_abs};
ghost use Rattle.std.specs.List.{sum_by};
ghost use Rattle.clip_core.specs.Mixes.{AreTaps};
ghost use Rattle.heard_core.specs.Products.{IsSmall, dot};
ghost use Rattle.heard_core.specs.Residuals.{window_residuals};

use crate::products::sum_windows;
use std::alloc::{AllocError, Global};
use std::marker::Model;

/// The taps of a low-pass that passes what can be heard: an odd number, at most 65,535. Their absolute values add up to
/// at most `2^31 - 1`.
#[derive(Drop)]
pub struct Audible {
    // In the order of the errors of a window.
    reversed: Vec<i64>,
}

impl Model for Audible {
    ghost use Rattle.std.specs.Prelude.{List, ℤ, ◌-◌, ◌^◌};
    ghost use Rattle.clip_core.specs.Mixes.{AreTaps};
    ghost use Rattle.heard_core.specs.AudibleView.{taps_of};

    ghost Value = { List ℤ };

    ghost view = { taps_of };

    ghost invariant = { λ a. AreTaps (2 ^ 31 - 1) (taps_of a) };
}

impl Audible {
    ghost use Rattle.std.specs.Prelude.{◌-◌};

    /// The low-pass of these taps.
    pub fn new(alloc: Global, taps: &[i32]) -> Result<Audible, AllocError>
        requires { AreTaps (2 ^ 31 - 1) taps.now }
        ensures { IfOk result (λ made. made ≡ taps.now) }
    {
        let mut reversed = widened(alloc, taps)?;
        reversed.reverse();
        Ok(Audible { reversed })
    }

    /// How many taps there are.
    pub fn len(&self) -> usize
        ensures value { result ≡ length self.now }
        ensures limits { AreTaps (2 ^ 31 - 1) self.now }
    {
        self.reversed.len()
    }

    /// Writes the residuals of as many windows as `sums` is long: the first window begins at the first error, and each
    /// other one `step` errors after the one before. A window has an error for each tap. Errors are below `2^31` in
    /// absolute value, and so residuals are below `2^62`. It takes no memory.
    pub fn residuals(&self, errors: &[i64], step: usize, sums: &mut [i64])
        requires within { (i : ℕ) → i < length sums.old → i * step + length self.now ≤ length errors.now }
        requires small { All IsSmall errors.now }
        ensures value { sums.new ≡ window_residuals self.now errors.now step (length sums.old) }
        ensures bound { All (λ r. unsigned_abs r < 2 ^ 62) sums.new }
    {
        let taps = self.reversed.as_slice();
        let groups = sums.len() / 8;
        for group in 0..groups {
            put_windows::<8>(taps, errors, step, sums, 8 * group);
        }
        for i in 8 * groups..sums.len() {
            put_windows::<1>(taps, errors, step, sums, i);
        }
    }
}

// Taps as numbers of 64 bits.
fn widened(alloc: Global, taps: &[i32]) -> Result<Vec<i64>, AllocError>
    ensures { IfOk result (λ made. made.items ≡ taps.now) }
{
    taps.iter().map(|tap| i64::from(*tap)).collect(alloc)
}

// Writes the sums of neighbouring windows from window `first` on.
#[inline(never)]
fn put_windows<const N: usize>(
    taps: &[i64],
    errors: &[i64],
    step: usize,
    sums: &mut [i64],
    first: usize,
)
    requires some { 1 ≤ N }
    requires few { N ≤ 8 }
    requires room { first + N ≤ length sums.old }
    requires within { (i : ℕ) → i < length sums.old → i * step + length taps.now ≤ length errors.now }
    requires small_taps { sum_by unsigned_abs taps.now < 2 ^ 31 }
    requires small_errors { All IsSmall errors.now }
    ensures kept { (i : ℕ) → i < first → slice_index_or sums.new i (pos 0) ≡ slice_index_or sums.old i (pos 0) }
    ensures put { (i : ℕ) → first ≤ i → i < first + N → slice_index_or sums.new i (pos 0) ≡ dot taps.now (drop (i * step) errors.now) }
{
    let made = sum_windows::<N>(taps, &errors[first * step..], step);
    for w in 0..N {
        sums[first + w] = made[w];
    }
}
