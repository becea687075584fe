//! The sums of windows that begin at each step's first byte, eight bytes at a time. A byte's row holds what the byte
//! adds to each window that contains it.

ghost use Rattle.std.specs.Prelude.{◌≡◌, ◌+◌, ◌*◌, ◌/◌, ◌%◌, ◌<◌, ◌≤◌, length};
ghost use Rattle.fir_core.specs.Blocks.{AreAdded, AreOf, AreSummed, IsAfter, sum_within};
ghost use Rattle.fir_core.specs.Windows.{AreWithin, window_sums};

use crate::blocks::{block_of, next, row_place};
use crate::lookup::{Block, Lookup, Spot, with_step};
use std::simd::prelude::*;

/// Adds eight bytes to the sum of window `j`.
fn add_one(block: Block<'_>, j: usize, sum: i32) -> i32
    requires inside { AreOf block j 1 }
    requires so_far { sum ≡ sum_within block 0 j }
    ensures { result ≡ sum_within block.entry 8 j }
{
    let mut all = sum;
    for b in 0..8 {
        all += block.lookup.entries[block.at[b] + (j - block.start)];
    }
    all
}

/// Adds eight bytes to the sums of eight windows from window `j` on, as one vector.
#[inline(always)]
fn add_eight(block: Block<'_>, j: usize, sums: &mut [i32])
    requires inside { AreOf block j 8 }
    requires added { AreAdded block j sums.old }
    ensures { AreAdded block.entry (j + 8) sums.new }
{
    let entries = block.lookup.entries;
    let mut lanes = i32x8::from_slice(&sums[j..]);
    for b in 0..8 {
        let at = block.at[b] + (j - block.start);
        lanes += i32x8::from_slice(&entries[at..]);
    }
    lanes.copy_to_slice(&mut sums[j..]);
}

/// Adds eight bytes to the sums of the windows that they reach, in whole groups of eight windows. This is a function of
/// its own, so that its loop knows no more of the rows than where they begin.
#[inline(never)]
fn add_eights(block: Block<'_>, sums: &mut [i32])
    requires { AreAdded block block.start sums.old }
    ensures { AreAdded block.entry (block.entry.start + 8 * (block.entry.number / 8)) sums.new }
{
    for turn in 0..block.number / 8 {
        add_eight(block, block.start + 8 * turn, sums);
    }
}

/// Adds eight bytes to the sums of the remaining windows, one by one. There are some only at the ends of a tile.
#[inline(never)]
fn add_rest(block: Block<'_>, sums: &mut [i32])
    requires { AreAdded block (block.start + 8 * (block.number / 8)) sums.old }
    ensures { AreAdded block.entry (block.entry.start + block.entry.number) sums.new }
{
    for j in block.start + 8 * (block.number / 8)..block.start + block.number {
        sums[j] = add_one(block, j, sums[j]);
    }
}

/// Adds eight bytes to the sum of each window, and returns the byte after them.
#[inline(always)]
fn add_block<'a>(spot: Spot<'a>, sums: &mut [i32]) -> Spot<'a>
    requires eights { spot.p % 8 ≡ 0 }
    requires within { spot.p + 8 ≤ length spot.bytes.now }
    requires reached { spot.p + 8 + spot.lookup.step ≤ length sums.old * spot.lookup.step + length spot.lookup.taps.now / 8 }
    requires so_far { AreSummed spot sums.old }
    ensures len { length sums.new ≡ length sums.old }
    ensures sums { AreSummed result sums.new }
    ensures next { IsAfter 8 spot.entry result }
{
    let (block, after) = block_of(spot, sums.len());
    add_eights(block, sums);
    if block.number % 8 != 0 {
        add_rest(block, sums);
    }
    after
}

/// Adds a byte to the sum of each window, and returns the byte after it.
#[inline(always)]
fn add_last<'a>(spot: Spot<'a>, sums: &mut [i32]) -> Spot<'a>
    requires within { spot.p < length spot.bytes.now }
    requires reached { spot.p + 1 + spot.lookup.step ≤ length sums.old * spot.lookup.step + length spot.lookup.taps.now / 8 }
    requires so_far { AreSummed spot sums.old }
    ensures len { length sums.new ≡ length sums.old }
    ensures sums { AreSummed result sums.new }
    ensures next { IsAfter 1 spot.entry result }
{
    let start = (spot.window + 1).saturating_sub(spot.lookup.span);
    let number = (spot.window + 1).min(sums.len()) - start;
    let at = row_place(spot, start);
    for k in 0..number {
        sums[start + k] += spot.lookup.entries[at + k];
    }
    next(spot)
}

/// The sums of windows that begin at each step's first byte.
#[inline(always)]
fn sum_steps(lookup: Lookup<'_>, bytes: &[u8], sums: &mut [i32])
    requires { AreWithin (length lookup.taps.now / 8) lookup.step (length sums.old) bytes.now }
    ensures { sums.new ≡ window_sums lookup.entry.taps.now bytes.now lookup.entry.step (length sums.old) }
{
    sums.fill(0);
    let reach = (sums.len() - 1) * lookup.step + lookup.taps.len() / 8;
    let blocks = reach / 8;
    let mut window = 0;
    let mut place = 0;
    for block in 0..blocks {
        let p = 8 * block;
        let spot = Spot {
            lookup,
            bytes,
            p,
            window,
            place,
        };
        let after = add_block(spot, sums);
        window = after.window;
        place = after.place;
    }
    for p in 8 * blocks..reach {
        let spot = Spot {
            lookup,
            bytes,
            p,
            window,
            place,
        };
        let after = add_last(spot, sums);
        window = after.window;
        place = after.place;
    }
}

/// The same, with short steps as constants, so that the compiler knows where each byte is in its own.
pub(crate) fn sum_by_lookup(lookup: Lookup<'_>, bytes: &[u8], sums: &mut [i32])
    requires { AreWithin (length lookup.taps.now / 8) lookup.step (length sums.old) bytes.now }
    ensures { sums.new ≡ window_sums lookup.entry.taps.now bytes.now lookup.entry.step (length sums.old) }
{
    match lookup.step {
        1 => sum_steps(with_step(lookup, 1), bytes, sums),
        2 => sum_steps(with_step(lookup, 2), bytes, sums),
        4 => sum_steps(with_step(lookup, 4), bytes, sums),
        _ => sum_steps(lookup, bytes, sums),
    }
}
