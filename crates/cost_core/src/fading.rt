//! The targets of a linear fade.

ghost use Rattle.std.specs.Prelude.{◌≡◌, ◌+◌, ◌*◌, ◌-◌, ◌<◌, ◌≤◌, length, pos, ◌+ℤ◌, ◌*ℤ◌, unsigned_abs, IfOk};
ghost use Rattle.cost_core.specs.Limits.{CanFade};
ghost use Rattle.cost_core.specs.Fade.{fade_over, targets_over};

use crate::seam::Seam;
use crate::sums::{blend, scale, weighted_at};
use std::alloc::{AllocError, Global};

// The target of place `i` of a fade of `levels` bits over a seam.
fn fade_at(weights: &[i32], seam: Seam<'_>, levels: usize, i: usize) -> i32
    requires room { CanFade weights.now seam.own.now seam.stop seam.next.now seam.start levels }
    requires first { 1 ≤ i }
    requires last { i < levels + length weights.now }
    ensures { result ≡ fade_over weights.now seam.entry levels i }
{
    let Seam {
        own,
        stop,
        next,
        start,
    } = seam;
    if i <= levels {
        blend(
            levels + 1 - i,
            weighted_at(weights, own, stop + i - 1),
            i,
            weighted_at(weights, next, start - levels + i - 1),
        )
    } else {
        scale(levels, weighted_at(weights, next, start + i - levels - 1))
    }
}

/// The targets of all places of a fade over a seam. Err is out of memory.
pub(crate) fn fade_targets(
    alloc: Global,
    weights: &[i32],
    seam: Seam<'_>,
    levels: usize,
) -> Result<Vec<i32>, AllocError>
    requires { CanFade weights.now seam.own.now seam.stop seam.next.now seam.start levels }
    ensures { IfOk result (λ made. made.items ≡ targets_over weights.now seam.entry levels) }
{
    (1..levels + weights.len())
        .map(|i| fade_at(weights, seam, levels, i))
        .collect(alloc)
}
