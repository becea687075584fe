//! Lists of bits, packed eight to a byte.

ghost use Rattle.std.specs.Prelude.{◌≡◌, ◌-◌, ◌*◌, ◌+◌, ◌<◌, ◌≤◌, ◌++◌, ◌∷◌, ◌↔◌, [], Bool, false, List, length, vec_len, IfOk, OnErr, OnOk, slice_index_or, slice_range};
ghost use Rattle.std.specs.Int.{div_ceil};
ghost use Rattle.dsd_bits.specs.Limits.{most_bits};
ghost use Rattle.dsd_bits.specs.Packing.{IsTight, packed, unpacked};

use crate::fault::BitsFault;
use crate::packing::{clear_from, put_bit};
use crate::ranges::append_range;
use std::alloc::{AllocError, Global};
use std::marker::Model;

/// A list of at most `2^36` bits. It is packed with the earliest bit of a byte as its most significant bit, and with
/// zeros in the spare bits of the last byte.
#[derive(Drop)]
pub struct Bits {
    bytes: Vec<u8>,
    count: usize,
}

impl Model for Bits {
    ghost Value = { List Bool };

    ghost view = { λ a. unpacked a.bytes.items a.count };

    ghost invariant = { λ a. IsTight a.bytes.items a.count };
}

impl Bits {
    /// No bits. It takes no memory.
    pub fn new(alloc: Global) -> Bits
        ensures { result ≡ [] }
    {
        Bits {
            bytes: Vec::new(alloc),
            count: 0,
        }
    }

    /// The first `count` bits of `bytes`, the most significant bit of a byte first. What follows them is left out.
    ///
    /// Refusals, in this order: `TooFewBytes` if the bytes hold fewer than `count` bits, `Memory`.
    pub fn from_packed(alloc: Global, bytes: &[u8], count: usize) -> Result<Bits, BitsFault>
        requires { count ≤ most_bits }
        ensures ok { IfOk result (λ bits. bits ≡ unpacked bytes.now count) }
        ensures too_few { (result ≡ Err BitsFault.TooFewBytes) ↔ (8 * length bytes.now < count) }
    {
        let size = count.div_ceil(8);
        if bytes.len() < size {
            return Err(BitsFault::TooFewBytes);
        }
        let kept = Vec::from_slice(alloc, &bytes[..size])?;
        Ok(Bits::from_first_bits(kept, count))
    }

    // The first bytes, as many as these bits take.
    pub(crate) fn from_first_bits(bytes: Vec<u8>, count: usize) -> Bits
        requires in_limit { count ≤ most_bits }
        requires size { vec_len bytes ≡ div_ceil count 8 }
        ensures { result ≡ unpacked bytes.items count }
    {
        let mut kept = bytes;
        clear_from(&mut kept, count);
        Bits { bytes: kept, count }
    }

    // All the bits of the bytes.
    pub(crate) fn from_whole_bytes(bytes: Vec<u8>) -> Bits
        requires { 8 * vec_len bytes ≤ most_bits }
        ensures { result ≡ unpacked bytes.items (8 * vec_len bytes) }
    {
        let count = 8 * bytes.len();
        Bits { bytes, count }
    }

    /// How many bits there are.
    pub fn len(&self) -> usize
        ensures value { result ≡ length self.now }
        ensures in_limit { length self.now ≤ most_bits }
    {
        self.count
    }

    /// Bit `i`, where bit 0 is the earliest.
    pub fn get(&self, i: usize) -> bool
        requires { i < length self.now }
        ensures { result ≡ slice_index_or self.now i false }
    {
        (self.bytes[i / 8] >> (7 - i % 8)) & 1 == 1
    }

    /// The packed bits: `len / 8` bytes, rounded up, with zeros in the spare bits of the last one.
    pub fn as_bytes(&self) -> &[u8]
        ensures packed { result.now ≡ packed self.now }
        ensures bits { self.now ≡ unpacked result.now (length self.now) }
        ensures tight { IsTight result.now (length self.now) }
    {
        let bytes = self.bytes.as_slice();
        bytes
    }

    /// Adds a bit at the end. If there is no memory for it, the bits are unchanged.
    pub fn push_bit(&mut self, bit: bool) -> Result<(), AllocError>
        requires { length self.old < most_bits }
        ensures ok { OnOk result (self.new ≡ self.old ++ bit ∷ []) }
        ensures err { OnErr result (self.new ≡ self.old) }
    {
        self.bytes.resize((self.count + 1).div_ceil(8), 0)?;
        put_bit(&mut self.bytes, self.count, bit);
        self.count += 1;
        Ok(())
    }

    /// Adds the bits `start` to `stop - 1` of `source` at the end. If there is no memory for them, the bits are
    /// unchanged.
    pub fn push_range(&mut self, source: &Bits, start: usize, stop: usize) -> Result<(), AllocError>
        requires in_order { start ≤ stop }
        requires in_source { stop ≤ length source.now }
        requires in_limit { length self.old + (stop - start) ≤ most_bits }
        ensures ok { OnOk result (self.new ≡ self.old ++ slice_range source.now start stop) }
        ensures err { OnErr result (self.new ≡ self.old) }
    {
        append_range(&mut self.bytes, self.count, source, start, stop)?;
        self.count += stop - start;
        Ok(())
    }
}
