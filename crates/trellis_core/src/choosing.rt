//! One level of a search: the lesser of the two ways into each state, eight states at a time.

ghost use Rattle.std.specs.Prelude.{◌≡◌, ◌*◌, ◌%◌, ◌<◌, ◌≤◌, length};
ghost use Rattle.std.specs.Simd.Lanes.{mask_l};
ghost use Rattle.cost_core.specs.Rows.{seconds, least};
ghost use Rattle.cost_core.specs.Ways.{HoldChoices, AreWays, are_upper, following};

use cost_core::{Ways, sums_into};
use std::simd::prelude::*;

/// The sum of a state that no bits lead to. It is also the greatest sum that is kept.
pub const NO_WAY: u64 = 1 << 63;

// The lesser of the sums by two ways into each of eight states, and a bit for each state, set if the second is less.
fn choose_eight(first: &[u64; 8], second: &[u64; 8]) -> ([u64; 8], u8)
    ensures row { result.0 ≡ least first.now second.now }
    ensures choices { result.1 ≡ mask_l (seconds first.now second.now) }
{
    let first = u64x8::from_array(*first);
    let second = u64x8::from_array(*second);
    let is_second = second.simd_lt(first);
    let least = is_second
        .select(second, first)
        .simd_min(u64x8::splat(NO_WAY));
    (least.to_array(), is_second.to_bitmask() as u8)
}

// Writes the next row if it has sixteen states or a multiple of that.
fn choose_by_eights(ways: Ways<'_>, row: &mut [u64], choices: &mut [u8])
    requires whole { length ways.old.now % 16 ≡ 0 }
    requires row_len { length row.old ≡ length ways.old.now }
    requires choices_len { length ways.old.now ≤ 8 * length choices.old }
    ensures row { row.new ≡ following ways.entry.old.now ways.entry.lows.now ways.entry.highs.now }
    ensures choices { HoldChoices ways.entry.old.now ways.entry.lows.now ways.entry.highs.now choices.new }
{
    let (low, high) = ways.old.split_at(ways.old.len() / 2);
    for i in 0..low.len() / 8 {
        let j = 2 * i;
        let (low_front, low_back) = sums_into(low, ways.lows, i);
        let (high_front, high_back) = sums_into(high, ways.highs, i);
        let (front, front_choice) = choose_eight(&low_front, &high_front);
        let (back, back_choice) = choose_eight(&low_back, &high_back);
        u64x8::from_array(front).copy_to_slice(&mut row[8 * j..]);
        u64x8::from_array(back).copy_to_slice(&mut row[8 * (j + 1)..]);
        choices[j] = front_choice;
        choices[j + 1] = back_choice;
    }
}

// Writes the next row if it has at most eight states, and returns a bit for each, set if the second way is less.
fn choose_few(ways: Ways<'_>, row: &mut [u64]) -> u8
    requires short { length ways.old.now ≤ 8 }
    requires row_len { length row.old ≡ length ways.old.now }
    ensures row { row.new ≡ following ways.entry.old.now ways.entry.lows.now ways.entry.highs.now }
    ensures choices { result ≡ mask_l (are_upper ways.entry.old.now ways.entry.lows.now ways.entry.highs.now) }
{
    let half = ways.old.len() / 2;
    let mut choices = 0u8;
    for k in 0..row.len() {
        let first = ways.old[k / 2] + ways.lows[k];
        let second = ways.old[half + k / 2] + ways.highs[k];
        if second < first {
            row[k] = second.min(NO_WAY);
            choices += 1 << k;
        } else {
            row[k] = first.min(NO_WAY);
        }
    }
    choices
}

/// Writes the next row, and into `choices` a bit for each of its states, set if the way by p + half is less.
pub(crate) fn choose(ways: Ways<'_>, row: &mut [u64], choices: &mut [u8])
    requires many { 8 < length ways.old.now → length ways.old.now % 16 ≡ 0 }
    requires row_len { length row.old ≡ length ways.old.now }
    requires choices_len { length ways.old.now ≤ 8 * length choices.old }
    requires some { 0 < length choices.old }
    ensures row { row.new ≡ following ways.entry.old.now ways.entry.lows.now ways.entry.highs.now }
    ensures choices { HoldChoices ways.entry.old.now ways.entry.lows.now ways.entry.highs.now choices.new }
{
    if ways.old.len() > 8 {
        choose_by_eights(ways, row, choices);
    } else {
        choices[0] = choose_few(ways, row);
    }
}
