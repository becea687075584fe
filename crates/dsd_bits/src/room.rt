//! Bits whose memory is reserved before they come.

ghost use Rattle.std.specs.Prelude.{◌≡◌, ◌-◌, ◌+◌, ◌≤◌, ◌++◌, [], IfOk, length, slice_range};
ghost use Rattle.dsd_bits.specs.Limits.{most_bits};
ghost use Rattle.dsd_bits.specs.Packing.{packed};

use crate::bits::Bits;
use crate::ranges::append_held;
use std::alloc::{AllocError, Global};
use std::marker::Model;

/// Bits whose memory is reserved: adding to them takes no memory and never fails.
#[derive(Drop)]
pub struct BitRoom {
    bytes: Vec<u8>,
    count: usize,
    most: usize,
}

impl Model for BitRoom {
    ghost use Rattle.dsd_bits.specs.Rooms.{RoomContent};

    ghost Value = { RoomContent };

    ghost use Rattle.dsd_bits.specs.RoomView.{KeepsRoom, room_content};

    ghost view = { room_content };

    ghost invariant = { KeepsRoom };
}

impl BitRoom {
    /// Memory for `most` bits, at most `2^36`, with no bits in it. Err is out of memory.
    pub fn new(alloc: Global, most: usize) -> Result<BitRoom, AllocError>
        requires { most ≤ most_bits }
        ensures { IfOk result (λ room. room ≡ record { bits = []; most = most }) }
    {
        let bytes = Vec::with_capacity(alloc, most.div_ceil(8))?;
        Ok(BitRoom {
            bytes,
            count: 0,
            most,
        })
    }

    /// How many bits there are.
    pub fn len(&self) -> usize
        ensures value { result ≡ length self.now.bits }
        ensures in_limit { length self.now.bits ≤ most_bits }
    {
        self.count
    }

    /// Removes all bits, and keeps the memory.
    pub fn clear(&mut self)
        ensures { self.new ≡ record self.old { bits = [] } }
    {
        self.bytes.clear();
        self.count = 0;
    }

    /// Adds the bits `start` to `stop - 1` of `source` at the end, for which memory is reserved.
    pub fn push_range(&mut self, source: &Bits, start: usize, stop: usize)
        requires in_order { start ≤ stop }
        requires in_source { stop ≤ length source.now }
        requires in_room { length self.old.bits + (stop - start) ≤ self.old.most }
        ensures { self.new ≡ record self.old { bits = self.old.bits ++ slice_range source.now start stop } }
    {
        append_held(&mut self.bytes, self.count, source, start, stop);
        self.count += stop - start;
    }

    // The packed bits, with zeros in the spare bits of the last byte.
    pub(crate) fn as_bytes(&self) -> &[u8]
        ensures { result.now ≡ packed self.now.bits }
    {
        let bytes = self.bytes.as_slice();
        bytes
    }
}
