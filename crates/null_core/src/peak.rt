//! The greatest of residuals.

ghost use Rattle.std.specs.Prelude.{◌+◌, ◌*◌, ◌<◌, ◌≤◌, ℕ, All, length};
ghost use Rattle.std.specs.List.{IsFirstBest};
ghost use Rattle.heard_core.specs.Products.{IsSmall};
ghost use Rattle.heard_core.specs.Residuals.{window_residuals};
ghost use Rattle.null_core.specs.Chunks.{IsPeak, is_louder};

use heard_core::Audible;

/// The greatest residual of some windows, in absolute value.
#[derive(Clone, Copy)]
pub(crate) struct Peak {
    /// The number of the first window that has it.
    pub index: usize,
    /// Its absolute value.
    pub size: u64,
}

/// The greatest residual of the windows that begin at each `step`-th error, one for each place of `sums`. What `sums` has
/// is written over.
pub(crate) fn peak_of(audible: &Audible, errors: &[i64], step: usize, sums: &mut [i64]) -> Peak
    requires some { 0 < length sums.old }
    requires within { (i : ℕ) → i < length sums.old → i * step + length audible.now ≤ length errors.now }
    requires small { All IsSmall errors.now }
    ensures { IsPeak (window_residuals audible.now errors.now step (length sums.old)) result }
{
    audible.residuals(errors, step, sums);
    let index = loudest(sums);
    Peak {
        index,
        size: sums[index].unsigned_abs(),
    }
}

// The index of the greatest absolute value, the first one that has it.
fn loudest(sums: &[i64]) -> usize
    requires { 0 < length sums.now }
    ensures { IsFirstBest is_louder sums.now (length sums.now) result }
{
    let mut best = 0;
    for i in 1..sums.len() {
        if sums[i].unsigned_abs() > sums[best].unsigned_abs() {
            best = i;
        }
    }
    best
}
