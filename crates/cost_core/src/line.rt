//! The targets of a straight line.

ghost use Rattle.std.specs.Prelude.{◌≡◌, ◌+◌, ◌<◌, ◌≤◌, IfOk};
ghost use Rattle.splice_core.specs.Cues.{IsLine};
ghost use Rattle.cost_core.specs.Line as lines;

use crate::sums::{blend, scale};
use std::alloc::{AllocError, Global};

// The target of place `i` of a line over `levels` bits, from the weighted sum `a` to `b`.
fn line_at(a: i32, b: i32, levels: usize, i: usize) -> i32
    requires line { IsLine a b }
    requires levels { levels ≤ 4096 }
    ensures { result ≡ lines.line a b levels i }
{
    if i <= levels {
        blend(levels + 1 - i, a, i, b)
    } else {
        scale(levels, b)
    }
}

/// The targets of all places of a line from one weighted sum to another, for `weights` weights. Err is out of memory.
pub(crate) fn line_targets(
    alloc: Global,
    first: i32,
    last: i32,
    weights: usize,
    levels: usize,
) -> Result<Vec<i32>, AllocError>
    requires line { IsLine first last }
    requires weights { (1 ≤ weights) × (weights ≤ 12) }
    requires levels { levels ≤ 4096 }
    ensures { IfOk result (λ made. made.items ≡ lines.line_targets first last weights levels) }
{
    (1..levels + weights)
        .map(|i| line_at(first, last, levels, i))
        .collect(alloc)
}
