//! What can be heard of errors, worked out by hand, and levels as they are printed.

ghost use Rattle.std.specs.Prelude.{◌+◌, ◌*◌, ◌^◌, ◌<◌, ◌≤◌, ℕ, length, unsigned_abs, All, IsTrue};
ghost use Rattle.heard_core.specs.Products.{IsSmall};

use heard_core::{Audible, push_level};
use std::alloc::{AllocError, Global};
use std::test::Fail;

// The errors of sixteen places, and a place without one on each side.
const ERRORS: [i64; 18] = [0, 2, 4, -8, 8, -4, -4, 8, -8, 4, 4, -8, 8, -4, -4, 8, -6, 0];

const RESIDUALS: [i64; 16] = [8, 2, -4, 4, -4, -4, 4, -4, 4, 4, -4, 4, -4, -4, 6, -4];

fn are_small(errors: &[i64]) -> bool
    ensures { IsTrue result → All IsSmall errors.now }
{
    errors.iter().all(|error| error.unsigned_abs() < 1 << 31)
}

// The residuals by taps of 1, 2 and 1, each some places after the one before.
fn residuals(alloc: Global, step: usize, sums: &mut [i64]) -> Result<bool, AllocError>
    requires { (i : ℕ) → i < length sums.old → i * step + 3 ≤ 18 }
{
    let audible = Audible::new(alloc, &[1, 2, 1])?;
    if !are_small(&ERRORS) {
        return Ok(false);
    }
    audible.residuals(&ERRORS, step, sums);
    Ok(true)
}

#[test]
fn sums_windows(rt: HostRuntime) -> Result<(), Fail> {
    let mut sums = [0; 16];
    assert!(rt; residuals(rt.alloc(), 1, &mut sums)?);
    assert!(rt; sums == RESIDUALS);
    Ok(())
}

#[test]
fn sums_every_fourth_window(rt: HostRuntime) -> Result<(), Fail> {
    let mut sums = [0; 4];
    assert!(rt; residuals(rt.alloc(), 4, &mut sums)?);
    assert!(rt; sums == [8, -4, 4, -4]);
    Ok(())
}

// A value, full scale, and the level as it is printed.
const LEVELS: [(u64, u64, &str); 13] = [
    (28, 32, "-1.15"),
    (20, 32, "-4.08"),
    (34, 32, "0.53"),
    (16, 32, "-6.02"),
    (6, 32, "-14.53"),
    (32, 32, "0.00"),
    (0, 32, "-inf"),
    (1, 10, "-20.00"),
    (1000, 1, "60.00"),
    (1, 1_000_000_000_000_000_000, "-360.00"),
    (1_000_000_000_000_000_001, 1_000_000_000_000_000_000, "0.01"),
    (999_999_999_999_999_999, 1_000_000_000_000_000_000, "0.00"),
    (u64::MAX, 1, "385.32"),
];

// Whether a level is printed so.
fn is_printed(alloc: Global, level: &(u64, u64, &str)) -> Result<bool, AllocError> {
    let (value, full, text) = *level;
    if full == 0 {
        return Ok(false);
    }
    let mut printed = String::new(alloc);
    push_level(alloc, &mut printed, value, full)?;
    Ok(printed.as_str() == text)
}

#[test]
fn prints_levels(rt: HostRuntime) {
    for level in &LEVELS {
        assert!(rt; is_printed(rt.alloc(), level) == Ok(true), "{}", level.2);
    }
}

#[test]
fn prints_a_level(rt: HostRuntime) -> Result<(), Fail> {
    assert!(rt; is_printed(rt.alloc(), &LEVELS[0])?);
    Ok(())
}
