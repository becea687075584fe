//! What is wrong with a row of bounds.

ghost use Rattle.std.specs.Prelude.{◌≡◌, ℕ, ◌+◌, ◌-◌, ◌*◌, ◌^◌, ◌<◌, ◌≤◌, length, ◌%◌, slice_index, MatchOption, IsTrue, ◌↔◌, false};
ghost use Rattle.std.specs.Simd.Lanes.{Each1};
ghost use Rattle.cost_core.specs.Trellis.{states, IsBounded};
ghost use Rattle.cost_core.specs.StateCosts.{trellis_of};
ghost use Rattle.cert_core.specs.TwoRows.{AllReach, ExceedsAt, IsLowEnd, WithinWays, reached_by, states_of};
ghost use Rattle.cert_core.specs.Within.{IsFirstBelow};
ghost use Rattle.cert_core.specs.Reasons.{FindsRowReason, RowBounded};

use crate::two_rows::TwoRows;
use crate::verdict::CertReason;
use cost_core::{Ways, Window, sums_into};
use std::simd::prelude::*;

/// The greatest bound.
pub const GREATEST: u64 = 1 << 63;

// Whether a value of eight states is above the greatest bound.
fn are_above(values: &[u64; 8]) -> bool
    ensures above { IsTrue result → (k : ℕ) × (k < 8) × (2 ^ 63 < slice_index values.now k) }
    ensures within { result ≡ false → (k : ℕ) → k < 8 → slice_index values.now k ≤ 2 ^ 63 }
{
    u64x8::from_array(*values)
        .simd_gt(u64x8::splat(GREATEST))
        .to_bitmask()
        != 0
}

/// Whether a value is above the greatest bound.
pub(crate) fn is_above(row: &[u64]) -> bool
    ensures above { IsTrue result → (q : ℕ) × (q < length row.now) × (2 ^ 63 < slice_index row.now q) }
    ensures within { result ≡ false → (q : ℕ) → q < length row.now → slice_index row.now q ≤ 2 ^ 63 }
{
    let (eights, rest) = row.as_chunks::<8>();
    for i in 0..eights.len() {
        if are_above(&eights[i]) {
            return true;
        }
    }
    for i in 0..rest.len() {
        if rest[i] > GREATEST {
            return true;
        }
    }
    false
}

// The bound that a state of the row before sets with a step of `bit`.
fn reached(rows: &TwoRows<'_>, from: usize, bit: bool) -> u64
    requires { from < states_of rows.now }
    ensures { result ≡ reached_by rows.now from bit }
{
    rows.previous[from] + rows.window.step_cost(rows.level, from, bit)
}

// Whether the value of a state exceeds what either state before it sets.
fn exceeds(rows: &TwoRows<'_>, state: usize) -> bool
    requires { state < states_of rows.now }
    ensures { IsTrue result ↔ ExceedsAt rows.now state }
{
    let bit = state % 2 == 1;
    let low = state / 2;
    let high = low + rows.window.states() / 2;
    let value = rows.row[state];
    reached(rows, low, bit) < value || reached(rows, high, bit) < value
}

// Whether no value of eight states exceeds what either state before it sets.
fn are_within(row: &[u64; 8], by_0: &[u64; 8], by_1: &[u64; 8]) -> bool
    ensures by_0 { IsTrue result → (k : ℕ) → k < 8 → slice_index row.now k ≤ slice_index by_0.now k }
    ensures by_1 { IsTrue result → (k : ℕ) → k < 8 → slice_index row.now k ≤ slice_index by_1.now k }
{
    let row = u64x8::from_array(*row);
    let by_0 = u64x8::from_array(*by_0);
    let by_1 = u64x8::from_array(*by_1);
    row.simd_gt(by_0).to_bitmask() == 0 && row.simd_gt(by_1).to_bitmask() == 0
}

// Whether no value of a row exceeds what either way into its state sets. The row has sixteen states or a multiple of
// that.
fn is_within(ways: &Ways<'_>, row: &[u64]) -> bool
    requires whole { length ways.now.old.now % 16 ≡ 0 }
    requires row_len { length row.now ≡ length ways.now.old.now }
    ensures { IsTrue result → WithinWays ways.now row.now }
{
    let (low, high) = ways.old.split_at(ways.old.len() / 2);
    let (rows, _) = row.as_chunks::<8>();
    for i in 0..low.len() / 8 {
        let (low_front, low_back) = sums_into(low, ways.lows, i);
        let (high_front, high_back) = sums_into(high, ways.highs, i);
        let front = are_within(&rows[2 * i], &low_front, &high_front);
        let back = are_within(&rows[2 * i + 1], &low_back, &high_back);
        if !front || !back {
            return false;
        }
    }
    true
}

// The lowest state whose value exceeds what a state before it sets. `steps` is overwritten.
fn exceeding(rows: &TwoRows<'_>, steps: &mut [u64]) -> Option<usize>
    requires { length steps.old ≡ 2 * states_of rows.now }
    ensures steps { length steps.new ≡ length steps.old }
    ensures found { IsFirstBelow (states_of rows.now) (ExceedsAt rows.now) result }
{
    let states = rows.window.states();
    if states > 8 {
        rows.window.step_costs(rows.level, steps);
        let (lows, highs) = steps.split_at(states);
        let ways = Ways {
            old: rows.previous,
            lows,
            highs,
        };
        if is_within(&ways, rows.row) {
            return None;
        }
    }
    for state in 0..states {
        if exceeds(rows, state) {
            return Some(state);
        }
    }
    None
}

/// The first thing that is wrong with the row of a level, none of whose values is above the greatest bound. `previous`
/// is the row before it, and `steps` is overwritten.
pub(crate) fn row_reason(
    window: &Window,
    level: usize,
    previous: &[u64],
    row: &[u64],
    steps: &mut [u64],
) -> Option<CertReason>
    requires bounded { IsBounded (trellis_of window.now) }
    requires level { level ≤ (trellis_of window.now).levels }
    requires row { length row.now ≡ states (trellis_of window.now) }
    requires bounds { RowBounded (trellis_of window.now) row.now }
    requires previous { 0 < level → length previous.now ≡ states (trellis_of window.now) }
    requires limit { 0 < level → RowBounded (trellis_of window.now) previous.now }
    requires steps { length steps.old ≡ 2 * states (trellis_of window.now) }
    ensures steps { length steps.new ≡ length steps.old }
    ensures reason { FindsRowReason (trellis_of window.now) level previous.now row.now result }
{
    if level == 0 {
        return if row[window.start()] == 0 {
            None
        } else {
            Some(CertReason::Start)
        };
    }
    let rows = TwoRows {
        window,
        level: level - 1,
        previous,
        row,
    };
    match exceeding(&rows, steps) {
        Some(state) => Some(CertReason::Step(level, state)),
        None => None,
    }
}

// Whether no end of eight states is below the stated cost.
fn reach_stated(last: &[u64; 8], tails: &[u64; 8], stated: u64) -> bool
    requires last { Each1 (λ x. x ≤ 2 ^ 63) last.now }
    requires tails { Each1 (λ x. x < 2 ^ 63) tails.now }
    ensures { IsTrue result → (k : ℕ) → k < 8 → stated ≤ slice_index last.now k + slice_index tails.now k }
{
    let ends = u64x8::from_array(*last).strict_add(u64x8::from_array(*tails));
    u64x8::splat(stated).simd_gt(ends).to_bitmask() == 0
}

// Whether no end is below the stated cost.
fn all_reach(last: &[u64], tails: &[u64], stated: u64) -> bool
    requires as_many { length tails.now ≡ length last.now }
    requires last { Each1 (λ x. x ≤ 2 ^ 63) last.now }
    requires tails { Each1 (λ x. x < 2 ^ 63) tails.now }
    ensures { IsTrue result → AllReach last.now tails.now stated }
{
    let (eights, rest) = last.as_chunks::<8>();
    let (eight_tails, rest_tails) = tails.as_chunks::<8>();
    for i in 0..eights.len() {
        if !reach_stated(&eights[i], &eight_tails[i], stated) {
            return false;
        }
    }
    for i in 0..rest.len() {
        if rest[i] + rest_tails[i] < stated {
            return false;
        }
    }
    true
}

/// The lowest state of the last row whose value plus the cost of ending there is below `stated`. `tails` is
/// overwritten.
pub(crate) fn low_end(
    window: &Window,
    last: &[u64],
    stated: u64,
    tails: &mut [u64],
) -> Option<usize>
    requires bounded { IsBounded (trellis_of window.now) }
    requires last { length last.now ≡ states (trellis_of window.now) }
    requires limit { RowBounded (trellis_of window.now) last.now }
    requires tails { length tails.old ≡ states (trellis_of window.now) }
    ensures { IsLowEnd (trellis_of window.now) last.now stated result }
{
    window.tail_costs(tails);
    if all_reach(last, tails, stated) {
        return None;
    }
    for state in 0..last.len() {
        if last[state] + tails[state] < stated {
            return Some(state);
        }
    }
    None
}
