//! Rows of values by state, eight states at a time.

ghost use Rattle.std.specs.Prelude.{◌≡◌, ◌+◌, ◌*◌, ◌/◌, ◌^◌, ◌<◌, ◌≤◌, length, take, drop};
ghost use Rattle.std.specs.Simd.Lanes.{Each1};
ghost use Rattle.cost_core.specs.Rows.{sums, twice};
ghost use Rattle.cost_core.specs.Ways.{AreWays};

use std::simd::prelude::*;

/// The ways into the states of a row. The states 2p and 2p + 1 come from the states p and p + half of `old`, which has
/// an even number of states. `lows` and `highs` are the steps into each state.
#[derive(Clone, Copy)]
pub struct Ways<'a> {
    /// The sums of the states before, at most `2^63`.
    pub old: &'a [u64],
    /// The steps from the lower half into each state, below `2^63`.
    pub lows: &'a [u64],
    /// The steps from the upper half into each state, below `2^63`.
    pub highs: &'a [u64],
    pub ghost ways: { AreWays old.now lows.now highs.now },
}

// The values of eight states, each for the two states that it leads to.
fn doubled(values: &[u64; 8]) -> ([u64; 8], [u64; 8])
    ensures front { result.0 ≡ twice (take 4 values.now) }
    ensures back { result.1 ≡ twice (drop 4 values.now) }
{
    let values = u64x8::from_array(*values);
    let (front, back) = values.interleave(values);
    (front.to_array(), back.to_array())
}

/// The sums by one way into sixteen states, eight and eight more. These are the states that a chunk of eight states
/// leads to, two from each. `values` are those of the states before, and `steps` has the step into each state.
#[inline(always)]
pub fn sums_into(values: &[u64], steps: &[u64], chunk: usize) -> ([u64; 8], [u64; 8])
    requires inside { chunk < length values.now / 8 }
    requires as_many { length steps.now ≡ 2 * length values.now }
    requires values { Each1 (λ x. x ≤ 2 ^ 63) values.now }
    requires steps { Each1 (λ x. x < 2 ^ 63) steps.now }
    ensures front { result.0 ≡ take 8 (drop (8 * (2 * chunk)) (sums (twice values.now) steps.now)) }
    ensures back { result.1 ≡ take 8 (drop (8 * (2 * chunk + 1)) (sums (twice values.now) steps.now)) }
{
    let (eights, _) = values.as_chunks::<8>();
    let (eight_steps, _) = steps.as_chunks::<8>();
    let (front, back) = doubled(&eights[chunk]);
    let first = u64x8::from_array(front).strict_add(u64x8::from_array(eight_steps[2 * chunk]));
    let second = u64x8::from_array(back).strict_add(u64x8::from_array(eight_steps[2 * chunk + 1]));
    (first.to_array(), second.to_array())
}
