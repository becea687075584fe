//! Packed bits are written into bytes, whole bytes at a time.

ghost use Rattle.std.specs.Prelude.{◌≡◌, ℕ, ◌+◌, ◌-◌, ◌*◌, ◌/◌, ◌%◌, ◌<◌, ◌≤◌, ◌++◌, ◌∷◌, [], Bool, List, false, if◌then◌else◌, IsOk, is_ok, length, OnOk, slice_index, vec_capacity, vec_len};
ghost use Rattle.std.specs.Int.{div_ceil};
ghost use Rattle.dsd_bits.specs.Packing.{Holds, packed_bit, unpacked};
ghost use Rattle.dsd_bits.specs.Shifting.{byte_across, byte_from, bytes_from};

use std::alloc::AllocError;

// Clears the packed bits from bit `from` on, which are all in the last byte.
pub(crate) fn clear_from(bytes: &mut Vec<u8>, from: usize)
    requires in_last { (from ≤ 8 * vec_len bytes.old) × (8 * vec_len bytes.old < from + 8) }
    ensures len { vec_len bytes.new ≡ vec_len bytes.old }
    ensures capacity { vec_capacity bytes.new ≡ vec_capacity bytes.old }
    ensures holds { Holds bytes.new.items (unpacked bytes.old.items from) }
{
    let used = from % 8;
    if used > 0 {
        bytes[from / 8] &= u8::MAX << (8 - used);
    }
}

// Writes the next bit after the `at` bits that the bytes hold.
pub(crate) fn put_bit(bytes: &mut Vec<u8>, at: usize, bit: bool)
    requires { at < 8 * vec_len bytes.old }
    ensures len { vec_len bytes.new ≡ vec_len bytes.old }
    ensures put { (xs : List Bool) → length xs ≡ at → Holds bytes.old.items xs →
        Holds bytes.new.items (xs ++ bit ∷ []) }
{
    if bit {
        bytes[at / 8] |= 1 << (7 - at % 8);
    }
}

// Writes the bits of `source` from bit `from` on after the first `at` bits, up to the end of their last byte, whose
// spare bits are zero.
pub(crate) fn fill_byte(bytes: &mut Vec<u8>, at: usize, source: &[u8], from: usize)
    requires in_bytes { at ≤ 8 * vec_len bytes.old }
    requires spare { (i : ℕ) → at ≤ i → i < 8 * div_ceil at 8 → packed_bit bytes.old.items i ≡ false }
    ensures len { vec_len bytes.new ≡ vec_len bytes.old }
    ensures capacity { vec_capacity bytes.new ≡ vec_capacity bytes.old }
    ensures before { (i : ℕ) → i < at → packed_bit bytes.new.items i ≡ packed_bit bytes.old.items i }
    ensures filled { (i : ℕ) → at ≤ i → i < 8 * div_ceil at 8 →
        packed_bit bytes.new.items i ≡ packed_bit source.now (from + (i - at)) }
    ensures after { (i : ℕ) → 8 * div_ceil at 8 ≤ i →
        packed_bit bytes.new.items i ≡ packed_bit bytes.old.items i }
{
    let used = at % 8;
    if used > 0 {
        bytes[at / 8] |= byte_from(source, from) >> used;
    }
}

// Appends `size` bytes: the bits of `source` from bit `at` on, with zeros past its end.
pub(crate) fn append_bytes(
    bytes: &mut Vec<u8>,
    source: &[u8],
    at: usize,
    size: usize,
) -> Result<(), AllocError>
    requires { at / 8 + size ≤ length source.now }
    ensures len { OnOk result (vec_len bytes.new ≡ vec_len bytes.old + size) }
    ensures items { bytes.new.items ≡
        (if is_ok result then bytes.old.items ++ bytes_from source.now at size else bytes.old.items) }
    ensures capacity { vec_capacity bytes.old ≤ vec_capacity bytes.new }
    ensures succeeds { vec_len bytes.old + size ≤ vec_capacity bytes.old → IsOk result }
{
    let first = at / 8;
    if at % 8 == 0 {
        return bytes.extend_from_slice(&source[first..first + size]);
    }
    if size == 0 {
        return Ok(());
    }
    let kept = bytes.len();
    bytes.resize(kept + size, 0)?;
    shift_into(bytes.as_mut_slice(), kept, source, at);
    Ok(())
}

// Writes the bits of `source` from bit `at` on over the bytes from `kept` on. Each combines two neighbouring bytes;
// the last may lack the second.
fn shift_into(to: &mut [u8], kept: usize, source: &[u8], at: usize)
    requires some { kept < length to.old }
    requires in_source { at / 8 + (length to.old - kept) ≤ length source.now }
    ensures before { (j : ℕ) → j < kept → slice_index to.new j ≡ slice_index to.old j }
    ensures after { (j : ℕ) → j < length to.old - kept →
        slice_index to.new (kept + j) ≡ byte_from source.now (at + 8 * j) }
{
    let first = at / 8;
    let shift = at % 8;
    let last = to.len() - kept - 1;
    for k in 0..last {
        to[kept + k] = byte_across(source[first + k], source[first + k + 1], shift);
    }
    to[kept + last] = byte_across(
        source[first + last],
        byte_or_zero(source, first + last + 1),
        shift,
    );
}

/// The 8 bits from bit `at` on, with zeros past the end.
#[inline]
pub fn byte_from(bytes: &[u8], at: usize) -> u8
    ensures { result ≡ byte_from bytes.now at }
{
    byte_across(
        byte_or_zero(bytes, at / 8),
        byte_or_zero(bytes, at / 8 + 1),
        at % 8,
    )
}

// The 8 bits from `shift` on of two neighbouring bytes.
#[inline]
fn byte_across(high: u8, low: u8, shift: usize) -> u8
    requires { shift < 8 }
    ensures { result ≡ byte_across high low shift }
{
    ((high as u16 * 256 + low as u16) >> (8 - shift) & 0xff) as u8
}

// Byte `j`, or zero past the end.
fn byte_or_zero(bytes: &[u8], j: usize) -> u8
    ensures { result ≡ slice_index bytes.now j }
{
    if j < bytes.len() { bytes[j] } else { 0 }
}
