//! Natural numbers of any size, in limbs of 64 bits, the lowest first.

ghost use Rattle.std.specs.Prelude.{◌≡◌, ◌+◌, ◌*◌, ◌^◌, ◌<◌, ◌≤◌, ◌↔◌, IfOk, IsTrue, length, slice_index};
ghost use Rattle.heard_core.specs.Naturals.{base, natural};

use std::alloc::AllocError;

// How many values a limb has.
const BASE: u128 = 1 << 64;

/// Multiplies a number.
fn multiply(limbs: &mut Vec<u64>, factor: u64) -> Result<(), AllocError>
    ensures { IfOk result (λ _. natural limbs.new.items ≡ natural limbs.old.items * factor) }
{
    let carry = multiply_limbs(limbs.as_mut_slice(), factor);
    if carry != 0 {
        limbs.push(carry)?;
    }
    Ok(())
}

// The limbs of a product and a carry, the lower first.
#[inline(always)]
fn product(limb: u64, factor: u64, carry: u64) -> (u64, u64)
    ensures { result.0 + base * result.1 ≡ limb * factor + carry }
{
    let product = u128::from(limb) * u128::from(factor) + u128::from(carry);
    ((product % BASE) as u64, (product / BASE) as u64)
}

// Multiplies the limbs in place, and returns the limb after the last one.
fn multiply_limbs(limbs: &mut [u64], factor: u64) -> u64
    ensures len { length limbs.new ≡ length limbs.old }
    ensures value { natural limbs.new + result * base ^ length limbs.old ≡ natural limbs.old * factor }
{
    let mut carry = 0;
    for i in 0..limbs.len() {
        let (low, high) = product(limbs[i], factor, carry);
        limbs[i] = low;
        carry = high;
    }
    carry
}

/// Multiplies a number by a power.
pub(crate) fn multiply_by_power(
    limbs: &mut Vec<u64>,
    factor: u64,
    exponent: u64,
) -> Result<(), AllocError>
    ensures { IfOk result (λ _. natural limbs.new.items ≡ natural limbs.old.items * factor ^ exponent) }
{
    for _ in 0..exponent {
        multiply(limbs, factor)?;
    }
    Ok(())
}

// The limb at a place, and 0 after the last one.
fn limb(limbs: &[u64], i: usize) -> u64
    ensures { result ≡ slice_index limbs.now i }
{
    if i < limbs.len() { limbs[i] } else { 0 }
}

// Whether a number is at most another one limb further on, by whether it is so far.
fn is_still_at_most(a: u64, b: u64, so_far: bool) -> bool
    ensures at_most { IsTrue so_far → (IsTrue result ↔ (a ≤ b)) }
    ensures above { (IsTrue so_far → ⊥) → (IsTrue result ↔ (a < b)) }
{
    if so_far { a <= b } else { a < b }
}

/// Whether a number is at most another.
pub(crate) fn is_at_most(left: &[u64], right: &[u64]) -> bool
    ensures { IsTrue result ↔ (natural left.now ≤ natural right.now) }
{
    let mut at_most = true;
    for i in 0..left.len().max(right.len()) {
        at_most = is_still_at_most(limb(left, i), limb(right, i), at_most);
    }
    at_most
}
