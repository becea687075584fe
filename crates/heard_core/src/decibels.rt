//! Levels in hundredths of a decibel to full scale.

ghost use Rattle.std.specs.Prelude.{◌≡◌, ◌*◌, ◌^◌, ◌≤◌, ◌++◌, ◌↔◌, ◌+ℤ◌, ◌<ℤ◌, ℕ, IfOk, IfSome, IsTrue, OnOk, codes, negsuc, pos, string_bytes, ℤ};
ghost use Rattle.heard_core.specs.Bounds.{IsWithin};
ghost use Rattle.heard_core.specs.Levels.{IsAtMost, IsAtMostScaled, IsLevel, level_text, limit, strength};
ghost use Rattle.heard_core.specs.Naturals.{natural};

use crate::bounds::{Bounds, is_at_most_by, power, times};
use crate::naturals::{is_at_most, multiply_by_power};
use std::alloc::{AllocError, Global};
use std::fmt::Write;

// The greatest power of ten that a limb holds, and its exponent.
const TENS: u64 = 10_000_000_000_000_000_000;

const TENS_EXPONENT: u64 = 19;

/// The level of a value in hundredths of a decibel to full scale, rounded towards louder: the least whole number `k` for
/// which `20 * log10(value / full)` is at most `k / 100`. It compares whole numbers, so the level is exact.
/// The only refusal is out of memory.
pub fn hundredths(alloc: Global, value: u64, full: u64) -> Result<i64, AllocError>
    requires some_value { 1 ≤ value }
    requires some_full { 1 ≤ full }
    ensures { IfOk result (λ k. IsLevel value full k) }
{
    let (mut low, mut high) = (below_all(), above_all());
    while low + 1 < high {
        let middle = between(low, high);
        if is_at_level(alloc, value, full, middle)? {
            high = middle;
        } else {
            low = middle;
        }
    }
    Ok(high)
}

/// Appends a value's level as it is printed: in decibels to full scale, with two decimals, rounded towards louder. That
/// of a value of 0 is `-inf`. The only refusal is out of memory.
pub fn push_level(alloc: Global, text: &mut String, value: u64, full: u64) -> Result<(), AllocError>
    requires { 1 ≤ full }
    ensures nothing { value ≡ 0 → OnOk result (string_bytes text.new ≡ string_bytes text.old ++ codes "-inf") }
    ensures level { 1 ≤ value → OnOk result ((k : ℤ) × IsLevel value full k × (string_bytes text.new ≡ string_bytes text.old ++ level_text k)) }
{
    if value == 0 {
        return text.push_str("-inf");
    }
    let level = hundredths(alloc, value, full)?;
    push_hundredths(text, level)
}

// Appends a number of hundredths.
fn push_hundredths(text: &mut String, level: i64) -> Result<(), AllocError>
    ensures { OnOk result (string_bytes text.new ≡ string_bytes text.old ++ level_text level) }
{
    let sign = if level < 0 { "-" } else { "" };
    let size = level.unsigned_abs();
    let (whole, tenths, hundredths) = (size / 100, size / 10 % 10, size % 10);
    write!(text, "{sign}{whole}.{tenths}{hundredths}")
}

// A level that is below each level of two numbers of 64 bits.
fn below_all() -> i64
    ensures { result ≡ negsuc limit }
{
    -40_001
}

// One that is above each of them.
fn above_all() -> i64
    ensures { result ≡ pos limit }
{
    40_000
}

// The middle of two numbers.
fn between(low: i64, high: i64) -> i64
    requires { (low +ℤ pos 1) <ℤ high }
    ensures above { low <ℤ result }
    ensures below { result <ℤ high }
{
    low + (low.abs_diff(high) / 2) as i64
}

// Whether a value is at most some hundredths of a decibel to full scale.
fn is_at_level(alloc: Global, value: u64, full: u64, level: i64) -> Result<bool, AllocError>
    ensures { IfOk result (λ b. IsTrue b ↔ IsAtMost value full level) }
{
    let (mine, theirs) = tens_of(level);
    match told_by_bounds(value, mine, full, theirs) {
        Some(is_at_most) => Ok(is_at_most),
        None => told_exactly(alloc, value, mine, full, theirs),
    }
}

// By which powers of ten both sides are multiplied.
fn tens_of(level: i64) -> (u64, u64)
    ensures { (x y : ℕ) → IsAtMostScaled x y level ↔ (x * 10 ^ result.0 ≤ y * 10 ^ result.1) }
{
    let size = level.unsigned_abs();
    if level < 0 { (size, 0) } else { (0, size) }
}

// Whether one number's scaled strength is at most another's, by their bounds. These don't tell of numbers that are as
// good as equal.
fn told_by_bounds(x: u64, tens: u64, y: u64, more_tens: u64) -> Option<bool>
    ensures { IfSome result (λ b. IsTrue b ↔ (strength x * 10 ^ tens ≤ strength y * 10 ^ more_tens)) }
{
    is_at_most_by(bounds_of(x, tens), bounds_of(y, more_tens))
}

// Bounds of a scaled strength.
fn bounds_of(x: u64, tens: u64) -> Bounds
    ensures { IsWithin result (strength x * 10 ^ tens) }
{
    times(power(x, 2000), power(10, tens))
}

// Whether one number's scaled strength is at most another's, by themselves.
fn told_exactly(
    alloc: Global,
    x: u64,
    tens: u64,
    y: u64,
    more_tens: u64,
) -> Result<bool, AllocError>
    ensures { IfOk result (λ b. IsTrue b ↔ (strength x * 10 ^ tens ≤ strength y * 10 ^ more_tens)) }
{
    let left = scaled_strength(alloc, x, tens)?;
    let right = scaled_strength(alloc, y, more_tens)?;
    Ok(is_at_most(left.as_slice(), right.as_slice()))
}

// A strength times a power of ten.
fn scaled_strength(alloc: Global, x: u64, tens: u64) -> Result<Vec<u64>, AllocError>
    ensures { IfOk result (λ made. natural made.items ≡ strength x * 10 ^ tens) }
{
    let mut made = Vec::from_slice(alloc, &[1])?;
    scale(&mut made, x, tens)?;
    Ok(made)
}

// Multiplies a number by a scaled strength.
fn scale(limbs: &mut Vec<u64>, x: u64, tens: u64) -> Result<(), AllocError>
    ensures { IfOk result (λ _. natural limbs.new.items ≡ natural limbs.old.items * (strength x * 10 ^ tens)) }
{
    multiply_by_power(limbs, x, 2000)?;
    multiply_by_power(limbs, TENS, tens / TENS_EXPONENT)?;
    multiply_by_power(limbs, 10, tens % TENS_EXPONENT)
}
