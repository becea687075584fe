//! Bounds of powers that are too large for a machine number, by which most of them can be compared.

ghost use Rattle.std.specs.Prelude.{◌*◌, ◌^◌, ◌<◌, ◌≤◌, ◌↔◌, ℕ, IfSome, IsTrue};
ghost use Rattle.heard_core.specs.Bounds.{IsWithin, LiesWithin};

// The greatest number of 64 bits.
const MOST: u128 = (1 << 64) - 1;

// The greatest number of 32 bits.
const MOST_SHIFT: u64 = (1 << 32) - 1;

/// Bounds of a number: it is at least `low * 2^shift` and at most `high * 2^shift`. There may be no room for bounds: then
/// they aren't known.
#[derive(Clone, Copy)]
pub(crate) struct Bounds {
    low: u64,
    high: u64,
    shift: u32,
    are_known: bool,
}

// The bounds of a number that they show exactly.
fn exactly(x: u64) -> Bounds
    ensures known { IsTrue result.are_known }
    ensures within { LiesWithin result x }
{
    Bounds {
        low: x,
        high: x,
        shift: 0,
        are_known: true,
    }
}

// Bounds that aren't known.
fn unknown() -> Bounds
    ensures { (n : ℕ) → IsWithin result n }
{
    Bounds {
        low: 0,
        high: 0,
        shift: 0,
        are_known: false,
    }
}

/// Bounds of a product.
pub(crate) fn times(a: Bounds, b: Bounds) -> Bounds
    ensures { (m n : ℕ) → IsWithin a m → IsWithin b n → IsWithin result (m * n) }
{
    let are_known = a.are_known & b.are_known;
    if !are_known {
        return unknown();
    }
    shortened(
        u128::from(a.low) * u128::from(b.low),
        u128::from(a.high) * u128::from(b.high),
        u64::from(a.shift) + u64::from(b.shift),
    )
}

// Bounds by wider ones, of which the last bits are dropped.
fn shortened(low: u128, high: u128, shift: u64) -> Bounds
    requires { shift < 2 ^ 33 }
    ensures { (n : ℕ) → low * 2 ^ shift ≤ n → n ≤ high * 2 ^ shift → IsWithin result n }
{
    let spare = 65_u32.saturating_sub(high.leading_zeros());
    let rounded = (high >> spare) + u128::from(spare.min(1));
    let shift = shift + u64::from(spare);
    if rounded > MOST || shift > MOST_SHIFT {
        return unknown();
    }
    Bounds {
        low: (low >> spare).min(MOST) as u64,
        high: rounded as u64,
        shift: shift as u32,
        are_known: true,
    }
}

/// Bounds of a power.
pub(crate) fn power(x: u64, exponent: u64) -> Bounds
    ensures { IsWithin result (x ^ exponent) }
{
    if exponent == 0 {
        return exactly(1);
    }
    let half = power(x, exponent / 2);
    let square = times(half, half);
    if exponent % 2 == 0 {
        return square;
    }
    times(square, exactly(x))
}

// Whether a number is surely below another one, if their bounds are known.
fn is_below(a: Bounds, b: Bounds) -> bool
    ensures { IsTrue result → (m n : ℕ) → LiesWithin a m → LiesWithin b n → m < n }
{
    if a.shift <= b.shift {
        a.high >> (b.shift - a.shift).min(63) < b.low
    } else {
        let more = a.shift - b.shift;
        more < 64 && a.high < b.low >> more
    }
}

/// Whether a number is at most another one, if their bounds tell.
pub(crate) fn is_at_most_by(a: Bounds, b: Bounds) -> Option<bool>
    ensures { IfSome result (λ t. (m n : ℕ) → IsWithin a m → IsWithin b n → (IsTrue t ↔ (m ≤ n))) }
{
    let are_known = a.are_known & b.are_known;
    if !are_known {
        return None;
    }
    if is_below(a, b) {
        return Some(true);
    }
    if is_below(b, a) {
        return Some(false);
    }
    None
}
