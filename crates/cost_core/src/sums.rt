//! Weighted sums of bits.

ghost use Rattle.std.specs.Prelude.{◌≡◌, ℕ, ◌+◌, ◌*◌, ◌%◌, ◌^◌, ◌<◌, ◌≤◌, map, length, slice_index, slice_index_or, pos, ◌+ℤ◌, ◌*ℤ◌, ◌-ℤ◌, unsigned_abs, IfOk};
ghost use Rattle.std.specs.List.{range_with_len};
ghost use Rattle.dsd_bits.specs.Sums.{sign};
ghost use Rattle.splice_core.specs.Cues.{AreWeights};
ghost use Rattle.cost_core.specs.Limits.{greatest_step, greatest_sum};
ghost use Rattle.cost_core.specs.Trellis.{state_after};
ghost use Rattle.cost_core.specs.Weighted.{AddsSquares, AreSquares, scaled_table, square, weighted, weighted_code};

use dsd_bits::Bits;
use std::alloc::{AllocError, Global};

// A weight with the sign of a bit.
fn signed(weight: i32, bit: bool) -> i32
    requires { unsigned_abs weight ≤ 4096 }
    ensures { result ≡ weight *ℤ sign bit }
{
    if bit { weight } else { -weight }
}

// The weighted sum of a number's binary digits, the lowest first.
fn weigh(weights: &[i32], code: usize) -> i32
    requires { AreWeights weights.now }
    ensures value { result ≡ weighted_code weights.now code }
    ensures bound { unsigned_abs result ≤ 4096 }
{
    let mut sum = 0;
    for (k, weight) in weights.iter().enumerate() {
        sum += signed(*weight, (code >> k) % 2 == 1);
    }
    sum
}

/// The weighted sum of the bits up to a place, newest first.
pub(crate) fn weighted_at(weights: &[i32], bits: &Bits, place: usize) -> i32
    requires weights { AreWeights weights.now }
    requires enough { length weights.now ≤ place + 1 }
    requires inside { place < length bits.now }
    ensures value { result ≡ weighted weights.now bits.now place }
    ensures bound { unsigned_abs result ≤ 4096 }
{
    let mut sum = 0;
    for (k, weight) in weights.iter().enumerate() {
        sum += signed(*weight, bits.get(place - k));
    }
    sum
}

/// A weighted sum times one more than the number of levels.
pub(crate) fn scale(levels: usize, sum: i32) -> i32
    requires levels { levels ≤ 4096 }
    requires sum { unsigned_abs sum ≤ 4096 }
    ensures value { result ≡ pos (levels + 1) *ℤ sum }
    ensures bound { unsigned_abs result ≤ (levels + 1) * 4096 }
{
    (levels as i32 + 1) * sum
}

/// A value between two weighted sums, in parts of one more than the levels.
pub(crate) fn blend(before: usize, first: i32, after: usize, last: i32) -> i32
    requires parts { before + after ≤ 4097 }
    requires first { unsigned_abs first ≤ 4096 }
    requires last { unsigned_abs last ≤ 4096 }
    ensures { result ≡ (pos before *ℤ first) +ℤ (pos after *ℤ last) }
{
    before as i32 * first + after as i32 * last
}

/// The square of the difference of two scaled sums: below `2^51`.
pub(crate) fn squared_difference(sum: i32, other: i32) -> u64
    requires sum { unsigned_abs sum ≤ greatest_sum }
    requires other { unsigned_abs other ≤ greatest_sum }
    ensures value { result ≡ square (sum -ℤ other) }
    ensures bound { result ≤ greatest_step }
{
    // Squared with its sign: lanes multiply signed numbers, so no absolute value is needed.
    let difference = i64::from(sum - other);
    (difference * difference) as u64
}

/// Writes the squares of the differences between some scaled sums and another one. (A plain loop over two slices, which
/// the compiler turns into lanes.)
pub(crate) fn squared_differences(sums: &[i32], other: i32, squares: &mut [u64])
    requires sums { (k : ℕ) → k < length sums.now → unsigned_abs (slice_index_or sums.now k (pos 0)) ≤ greatest_sum }
    requires other { unsigned_abs other ≤ greatest_sum }
    requires as_many { length squares.old ≡ length sums.now }
    ensures { AreSquares sums.now other squares.new }
{
    for i in 0..squares.len() {
        squares[i] = squared_difference(sums[i], other);
    }
}

/// Adds to each number of a row the square of the difference between a scaled sum and another one. For number `k` this
/// is the sum at `first` plus `k * 2^shift`; the index wraps round the table of sums.
pub(crate) fn add_squared_differences(
    sums: &[i32],
    first: usize,
    shift: usize,
    other: i32,
    row: &mut [u64],
)
    requires whole { (n : ℕ) × (length sums.now ≡ 2 ^ n) }
    requires sums { (k : ℕ) → k < length sums.now → unsigned_abs (slice_index_or sums.now k (pos 0)) ≤ greatest_sum }
    requires first { first ≤ 4096 }
    requires shift { shift ≤ 12 }
    requires other { unsigned_abs other ≤ greatest_sum }
    requires short { length row.old ≤ 2048 }
    requires row { (k : ℕ) → k < length row.old → slice_index row.old k ≤ 2 ^ 62 }
    ensures { AddsSquares sums.now first shift other row.old row.new }
{
    let last = sums.len() - 1;
    for k in 0..row.len() {
        row[k] += squared_difference(sums[((k << shift) + first) & last], other);
    }
}

/// The scaled weighted sums of all numbers that have as many binary digits as there are weights. Err is out of memory.
pub(crate) fn scaled_sums(
    alloc: Global,
    weights: &[i32],
    levels: usize,
) -> Result<Vec<i32>, AllocError>
    requires weights { AreWeights weights.now }
    requires levels { levels ≤ 4096 }
    ensures { IfOk result (λ made. made.items ≡ scaled_table weights.now levels) }
{
    (0..1 << weights.len())
        .map(|code| scale(levels, weigh(weights, code)))
        .collect(alloc)
}

/// The state that bits lead to from state 0. They are its binary digits, and the newest is the lowest.
pub(crate) fn read_state(bits: &Bits) -> usize
    requires { length bits.now ≤ 11 }
    ensures { result ≡ state_after (length bits.now) 0 bits.now }
{
    let states = 1 << bits.len();
    let mut state = 0;
    for i in 0..bits.len() {
        state = (2 * state + usize::from(bits.get(i))) % states;
    }
    state
}
