//! Bits are compared with others, many at a time.

ghost use Rattle.std.specs.Prelude.{◌≡◌, ◌≢◌, ℕ, ◌+◌, ◌*◌, ◌/◌, ◌^◌, ◌<◌, ◌≤◌, IsTrue, false, length, slice_index, slice_index_or};
ghost use Rattle.dsd_bits.specs.Packing.{packed_bit};
ghost use Rattle.dsd_bits.specs.Shifting as shifting;

use dsd_bits::{Bits, byte_from};

// How many bytes are compared at a time.
const CHUNK: usize = 64;

/// How many bits from one place on equal others from another place on, before the first that differ, `most` at most.
pub(crate) fn alike_bits(bits: &Bits, at: usize, others: &Bits, own: usize, most: usize) -> usize
    requires bits { at + most ≤ length bits.now }
    requires others { own + most ≤ length others.now }
    ensures few { result ≤ most }
    ensures alike { (k : ℕ) → k < result → slice_index_or bits.now (at + k) false ≡ slice_index_or others.now (own + k) false }
    ensures other { result < most → slice_index_or bits.now (at + result) false ≢ slice_index_or others.now (own + result) false }
{
    let _count = bits.len();
    let _other_count = others.len();
    for k in alike_ahead(bits, at, others, own, most)..most {
        if bits.get(at + k) != others.get(own + k) {
            return k;
        }
    }
    most
}

// How many bits from one place on equal others from another place on: those up to the next byte, and whole bytes after
// them. The bit after these need not differ.
fn alike_ahead(bits: &Bits, at: usize, others: &Bits, own: usize, most: usize) -> usize
    requires bits { at + most ≤ length bits.now }
    requires others { own + most ≤ length others.now }
    ensures few { result ≤ most }
    ensures alike { (k : ℕ) → k < result → slice_index_or bits.now (at + k) false ≡ slice_index_or others.now (own + k) false }
{
    let head = (8 - at % 8) % 8;
    if most < head || !are_alike(bits, at, others, own, head) {
        return 0;
    }
    let left = bits.as_bytes();
    let right = others.as_bytes();
    let bytes = alike_bytes(left, (at + head) / 8, right, own + head, (most - head) / 8);
    head + 8 * bytes
}

// Whether some bits from one place on equal others from another place on.
fn are_alike(bits: &Bits, at: usize, others: &Bits, own: usize, number: usize) -> bool
    requires bits { at + number ≤ length bits.now }
    requires others { own + number ≤ length others.now }
    ensures { IsTrue result → (k : ℕ) → k < number → slice_index_or bits.now (at + k) false ≡ slice_index_or others.now (own + k) false }
{
    let _count = bits.len();
    let _other_count = others.len();
    for k in 0..number {
        if bits.get(at + k) != others.get(own + k) {
            return false;
        }
    }
    true
}

// How many bytes of packed bits, from one on, equal others from a bit on, before the first that differ.
fn alike_bytes(bits: &[u8], first: usize, others: &[u8], own: usize, most: usize) -> usize
    requires bits { first + most ≤ length bits.now }
    requires others { own + 8 * most ≤ 8 * length others.now }
    requires fit { length others.now ≤ 2 ^ 36 }
    ensures few { result ≤ most }
    ensures alike { (i : ℕ) → i < 8 * result → packed_bit bits.now (8 * first + i) ≡ packed_bit others.now (own + i) }
{
    for k in CHUNK * alike_chunks(bits, first, others, own, most)..most {
        if bits[first + k] != byte_from(others, own + 8 * k) {
            return k;
        }
    }
    most
}

// How many whole chunks of them are alike, as far as a byte follows the others of a chunk.
fn alike_chunks(bits: &[u8], first: usize, others: &[u8], own: usize, most: usize) -> usize
    requires bits { first + most ≤ length bits.now }
    requires others { own + 8 * most ≤ 8 * length others.now }
    requires fit { length others.now ≤ 2 ^ 36 }
    ensures few { 64 * result ≤ most }
    ensures alike { (k : ℕ) → k < 64 * result → slice_index bits.now (first + k) ≡ shifting.byte_from others.now (own + 8 * k) }
{
    let followed = others.len().saturating_sub(own / 8 + 1);
    let chunks = most.min(followed) / CHUNK;
    for k in 0..chunks {
        if !is_chunk_alike(bits, first + CHUNK * k, others, own + 8 * CHUNK * k) {
            return k;
        }
    }
    chunks
}

// Whether a chunk equals others from a bit on. Its loop has no exit, so that the compiler makes vectors of it.
#[inline]
fn is_chunk_alike(bits: &[u8], first: usize, others: &[u8], own: usize) -> bool
    requires bits { first + 64 ≤ length bits.now }
    requires others { own / 8 + 65 ≤ length others.now }
    ensures { IsTrue result → (k : ℕ) → k < 64 → slice_index bits.now (first + k) ≡ shifting.byte_from others.now (own + 8 * k) }
{
    let from = own / 8;
    let shift = own % 8;
    let mut same = true;
    for k in 0..CHUNK {
        let other = byte_across(others[from + k], others[from + k + 1], shift);
        same = same & (bits[first + k] == other);
    }
    same
}

// The 8 bits from `shift` on of two neighbouring bytes. It shifts bytes alone: in vectors, twice as many fit as with words
// of two bytes.
#[inline(always)]
fn byte_across(high: u8, low: u8, shift: usize) -> u8
    requires { shift < 8 }
    ensures { result ≡ shifting.byte_across high low shift }
{
    (high << shift) | (low >> 1 >> (7 - shift))
}
