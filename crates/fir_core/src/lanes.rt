//! Sums of taps over packed bits, eight taps a step.

ghost use Rattle.std.specs.Prelude.{◌≡◌, ◌+◌, ◌*◌, ◌%◌, ◌^◌, ◌<◌, ◌≤◌, length, IfOk, unsigned_abs};
ghost use Rattle.std.specs.List.{sum_by};
ghost use Rattle.std.specs.Simd.Lanes.{Each1, zip2};
ghost use Rattle.fir_core.specs.Convolution.{conv};
ghost use Rattle.fir_core.specs.Decimator.{sample_at, samples};
ghost use Rattle.fir_core.specs.Signed.{bits_of, bits_of_byte, dot, signed};
ghost use Rattle.fir_core.specs.Windows.{aligned};

use crate::convolution::sum_at;
use crate::rounding::{clip, round};
use crate::tables::{aligned_taps, dot_plain};
use crate::taps::Taps;
use dsd_bits::Bits;
use std::alloc::{AllocError, Global};
use std::simd::prelude::*;

// A decimator, and its taps in the order of the bits.
#[derive(Clone, Copy)]
struct Reversed<'a> {
    taps: &'a Taps,
    reversed: &'a [i32],
    ghost are: { reversed.now ≡ aligned taps.now.taps taps.now.delay },
    ghost small: { sum_by unsigned_abs reversed.now ≤ 2 ^ 30 },
}

/// All samples of a channel, each sum in lanes of eight taps.
pub(crate) fn decimate_by_lanes(
    alloc: Global,
    taps: &Taps,
    bits: &Bits,
) -> Result<Vec<i32>, AllocError>
    ensures { IfOk result (λ made. made.items ≡ samples taps.now bits.now) }
{
    let aligned = aligned_taps(alloc, taps)?;
    let number = bits.len().div_ceil(taps.factor() as usize);
    let reversed = Reversed {
        taps,
        reversed: aligned.as_slice(),
    };
    let mut made = Vec::with_capacity(alloc, number)?;
    for j in 0..number {
        made.push(sample_by_lanes(reversed, bits, j))?;
    }
    Ok(made)
}

// Sample `j` of a channel, by the taps in the order of the bits.
fn sample_by_lanes(reversed: Reversed<'_>, bits: &Bits, j: usize) -> i32
    requires { j * reversed.taps.now.factor < length bits.now }
    ensures { result ≡ sample_at reversed.entry.taps.now bits.now j }
{
    let _count = bits.len();
    let taps = reversed.taps;
    let n = j * taps.factor as usize + taps.delay as usize;
    clip(
        round(sum_at_by_lanes(reversed, bits, n), taps.shift),
        taps.width,
    )
}

// The convolution at a place: in lanes if its window is within the recording, else bit by bit.
fn sum_at_by_lanes(reversed: Reversed<'_>, bits: &Bits, n: usize) -> i32
    requires phase { n % 8 ≡ reversed.taps.now.delay % 8 }
    requires place { n < 2 ^ 37 }
    ensures value { result ≡ conv reversed.entry.taps.now.taps bits.now n }
    ensures bound { unsigned_abs result ≤ 2 ^ 30 }
{
    let size = reversed.reversed.len() / 8;
    if n / 8 + 1 < size || bits.len() <= n {
        return sum_at(reversed.taps, bits, n);
    }
    dot_by_lanes(reversed.reversed, &bits.as_bytes()[n / 8 + 1 - size..])
}

// The sum of the taps, each with its bit's sign: whole groups of eight in lanes, the rest one by one.
pub(crate) fn dot_by_lanes(taps: &[i32], bytes: &[u8]) -> i32
    requires enough { length taps.now ≤ 8 * length bytes.now }
    requires small { sum_by unsigned_abs taps.now ≤ 2 ^ 30 }
    ensures { result ≡ dot taps.now (bits_of bytes.now) }
{
    let (groups, rest) = taps.as_chunks::<8>();
    let mut lanes = i32x8::splat(0);
    for i in 0..groups.len() {
        lanes += signed_taps(&groups[i], bytes[i]);
    }
    lanes.reduce_sum() + dot_plain(rest, &bytes[groups.len()..])
}

// Eight taps, each with the sign of its bit: the byte's bits are the mask that selects a tap or its
// negative.
fn signed_taps(taps: &[i32; 8], byte: u8) -> i32x8
    requires { Each1 (λ h. unsigned_abs h ≤ 2 ^ 30) taps.now }
    ensures { result ≡ zip2 signed (bits_of_byte byte) taps.now }
{
    let taps = i32x8::from_array(*taps);
    let bits = i32x8::splat(byte as i32) & i32x8::from_array([128, 64, 32, 16, 8, 4, 2, 1]);
    bits.simd_ne(i32x8::splat(0)).select(taps, -taps)
}
