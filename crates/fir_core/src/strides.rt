//! The sums of windows, by every eighth step at a time (strided). What such a step adds to neighbouring windows is in
//! whole vectors of its bytes' rows, and the sums that it contributes to stay in registers.

ghost use Rattle.std.specs.Prelude.{◌≡◌, ℕ, ◌+◌, ◌-◌, ◌*◌, ◌/◌, ◌<◌, ◌≤◌, ◌^◌, EachIndex, length, pos, slice_index_or, unsigned_abs};
ghost use Rattle.std.specs.Int.{div_ceil};
ghost use Rattle.fir_core.specs.Strides.{Adds, AreColumns, AreSevenOn, AreStrided, IsAddedAt, Moves, near_step};
ghost use Rattle.fir_core.specs.Windows.{AreWithin, window_sums};

use crate::lookup::{Lookup, with_step};
use crate::row_sums::sum_by_lookup;
use std::simd::prelude::*;

/// Rows of which no byte reaches more than `most` groups of eight windows.
#[derive(Clone, Copy)]
struct Near<'a, const N: usize> {
    lookup: Lookup<'a>,
    ghost some: { 1 ≤ N },
    ghost few: { N ≤ 128 },
    ghost span: { 8 * N ≤ lookup.span },
    ghost wide: { length lookup.taps.now / 8 ≤ 8 * N * lookup.step },
}

/// Adds groups of eight numbers to as many vectors.
#[inline(always)]
fn add_row<const N: usize>(near: &mut [[i32; 8]; N], row: &[i32])
    requires few { N ≤ 128 }
    requires long { 8 * N ≤ length row.now }
    requires small { (c : ℕ) → c < 8 * N → unsigned_abs (slice_index_or row.now c (pos 0)) ≤ 2 ^ 30 }
    ensures len { length near.new ≡ N }
    ensures sums { Adds N (λ c. slice_index_or row.now c (pos 0)) near.old near.new }
{
    for k in 0..N {
        near[k] = (i32x8::from_array(near[k]) + i32x8::from_slice(&row[8 * k..])).to_array();
    }
}

/// The last columns of the row of a byte at a place in its step.
#[inline(always)]
fn last_columns<'a>(lookup: Lookup<'a>, place: usize, byte: u8, number: usize) -> &'a [i32]
    requires place { place < lookup.step }
    requires few { number ≤ lookup.span }
    ensures { AreColumns lookup.entry place byte number result.now }
{
    let row = 4 + (256 * place + byte as usize) * (lookup.span + 8);
    let at = row + (lookup.span - number);
    &lookup.entries[at..at + number]
}

/// Adds what the bytes of step `u` hold in the last columns of their rows.
#[inline(always)]
fn add_step<const N: usize>(of: Near<'_, N>, bytes: &[u8], u: usize, near: &mut [[i32; 8]; N])
    requires { u * of.lookup.step + of.lookup.step ≤ length bytes.now }
    ensures len { length near.new ≡ N }
    ensures sums { Adds N (near_step of.entry.lookup bytes.now N u) near.old near.new }
{
    let first = u * of.lookup.step;
    for place in 0..of.lookup.step {
        add_row(
            near,
            last_columns(of.lookup, place, bytes[first + place], 8 * N),
        );
    }
}

/// The vectors for the columns of eight steps later: each moves down by one, and the last is 0.
#[inline(always)]
fn moved<const N: usize>(near: [[i32; 8]; N]) -> [[i32; 8]; N]
    requires some { 1 ≤ N }
    requires few { N ≤ 128 }
    ensures { Moves N near.entry result }
{
    let mut moved = [[0; 8]; N];
    for k in 0..N - 1 {
        moved[k] = near[k + 1];
    }
    moved
}

/// Adds eight numbers to the sums from a place on.
#[inline(always)]
fn add_eight(near: [i32; 8], sums: &mut [i32], at: usize)
    requires eight { length near ≡ 8 }
    requires inside { at + 8 ≤ length sums.old }
    ensures { IsAddedAt near at sums.old sums.new }
{
    let sum = i32x8::from_array(near) + i32x8::from_slice(&sums[at..]);
    sum.copy_to_slice(&mut sums[at..]);
}

/// Adds what every eighth step from step `s` on adds to windows, each at the place seven after its own, to the sums
/// from place `s` on, but not after the last eight of whole groups.
#[inline(always)]
fn add_stride<const N: usize>(of: Near<'_, N>, bytes: &[u8], s: usize, sums: &mut [i32])
    requires turn { s < 8 }
    requires room { 8 ≤ length sums.old }
    requires enough { (8 * (length sums.old / 8 + N) - 16) * of.lookup.step ≤ length bytes.now }
    ensures { AreStrided of.entry.lookup bytes.now N s sums.old sums.new }
{
    let mut near = [[0; 8]; N];
    for early in 0..N - 1 {
        near = moved(near);
        add_step(of, bytes, 8 * early + s, &mut near);
    }
    for t in 0..sums.len() / 8 - 1 {
        near = moved(near);
        add_step(of, bytes, 8 * (t + (N - 1)) + s, &mut near);
        add_eight(near[0], sums, 8 * t + s);
    }
}

/// Adds what all steps add to windows, each at the place seven after its own, to sums that are all 0.
#[inline(always)]
fn add_strides<const N: usize>(of: Near<'_, N>, bytes: &[u8], sums: &mut [i32])
    requires room { 8 ≤ length sums.old }
    requires enough { (8 * (length sums.old / 8 + N) - 16) * of.lookup.step ≤ length bytes.now }
    requires zeros { (i : ℕ) → i < length sums.old → slice_index_or sums.old i (pos 0) ≡ pos 0 }
    ensures len { length sums.new ≡ length sums.old }
    ensures sums { AreSevenOn of.entry.lookup bytes.now sums.new }
{
    for s in 0..8 {
        add_stride(of, bytes, s, sums);
    }
}

/// The sums of windows that begin at each step's first byte, at most as many as a tile has, if enough bytes follow
/// them.
#[inline(always)]
fn sum_tile<const N: usize>(of: Near<'_, N>, bytes: &[u8], sums: &mut [i32])
    requires tile { length sums.old ≤ 4096 }
    requires enough { (length sums.old + 8 * N + 7) * of.lookup.step ≤ length bytes.now }
    ensures { sums.new ≡ window_sums of.entry.lookup.taps.now bytes.now of.entry.lookup.step (length sums.old) }
{
    let mut wide = [0; 4120];
    let (used, _) = wide.split_at_mut((sums.len() + 14) / 8 * 8 + 8);
    add_strides(of, bytes, used);
    sums.copy_from_slice(&used[7..7 + sums.len()]);
}

/// The same, with short steps as constants, so that the compiler knows how many bytes a step has.
#[inline(never)]
fn sum_first<const N: usize>(of: Near<'_, N>, bytes: &[u8], sums: &mut [i32])
    requires tile { length sums.old ≤ 4096 }
    requires enough { (length sums.old + 8 * N + 7) * of.lookup.step ≤ length bytes.now }
    ensures { sums.new ≡ window_sums of.entry.lookup.taps.now bytes.now of.entry.lookup.step (length sums.old) }
{
    if of.lookup.step == 1 {
        let lookup = with_step(of.lookup, 1);
        sum_tile(Near::<N> { lookup }, bytes, sums);
    } else {
        sum_tile(of, bytes, sums);
    }
}

/// The sums of windows that begin at each step's first byte: the first strided, as far as enough bytes follow them, and
/// the rest eight bytes at a time.
fn sum_near<const N: usize>(lookup: Lookup<'_>, bytes: &[u8], sums: &mut [i32])
    requires number { N ≡ div_ceil (div_ceil (length lookup.taps.now / 8) lookup.step) 8 }
    requires within { AreWithin (length lookup.taps.now / 8) lookup.step (length sums.old) bytes.now }
    ensures { sums.new ≡ window_sums lookup.entry.taps.now bytes.now lookup.entry.step (length sums.old) }
{
    let steps = bytes.len() / lookup.step;
    let many = steps.saturating_sub(8 * N + 7).min(sums.len()).min(4096);
    if many == 0 {
        sum_by_lookup(lookup, bytes, sums);
        return;
    }
    let (front, back) = sums.split_at_mut(many);
    sum_first(Near::<N> { lookup }, bytes, front);
    if back.len() > 0 {
        sum_by_lookup(lookup, &bytes[many * lookup.step..], back);
    }
}

/// The sums of windows that begin at each step's first byte: strided, if a row spans few enough windows for their sums
/// to stay in registers. The compiler splits up to six vectors into numbers, except six if each step is a byte: there
/// eight bytes at a time are faster.
pub(crate) fn sum_all(lookup: Lookup<'_>, bytes: &[u8], sums: &mut [i32])
    requires { AreWithin (length lookup.taps.now / 8) lookup.step (length sums.old) bytes.now }
    ensures { sums.new ≡ window_sums lookup.entry.taps.now bytes.now lookup.entry.step (length sums.old) }
{
    match (lookup.taps.len() / 8).div_ceil(lookup.step).div_ceil(8) {
        6 if lookup.step == 1 => sum_near::<6>(lookup, bytes, sums),
        7 => sum_near::<7>(lookup, bytes, sums),
        8 => sum_near::<8>(lookup, bytes, sums),
        9 => sum_near::<9>(lookup, bytes, sums),
        10 => sum_near::<10>(lookup, bytes, sums),
        _ => sum_by_lookup(lookup, bytes, sums),
    }
}
