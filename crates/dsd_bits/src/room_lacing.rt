//! Bits in reserved memory are interleaved into sound bytes, for which memory is reserved too.

ghost use Rattle.std.specs.Prelude.{◌≡◌, ◌+◌, ◌*◌, ◌%◌, ◌≤◌, ◌++◌, length, map, slice_index, vec_capacity, vec_len};
ghost use Rattle.std.specs.List.{range_with_len};
ghost use Rattle.dsd_bits.specs.Blocks.{blocked, blocks_size, ordered};
ghost use Rattle.dsd_bits.specs.Channels.{IsLevel, count_of};
ghost use Rattle.dsd_bits.specs.Lacing.{frame_number, laced};
ghost use Rattle.dsd_bits.specs.Limits.{block_bytes};
ghost use Rattle.dsd_bits.specs.Rooms.{rooms_bits};

use crate::blocks::{BitOrder, push_block};
use crate::lacing::{lace_two, spread};
use crate::limits::BLOCK_BITS;
use crate::room::BitRoom;
use std::alloc::AllocError;

/// Appends the sound bytes of one to six channels of equal length in whole bytes, held in [`BitRoom`](crate::BitRoom)s,
/// as [`push_laced`](crate::push_laced) does. Memory for them is reserved, so it takes none.
pub fn push_laced_rooms(out: &mut Vec<u8>, rooms: &[BitRoom])
    requires channel_number { (1 ≤ length rooms.now) × (length rooms.now ≤ 6) }
    requires level { IsLevel (rooms_bits rooms.now) }
    requires whole_bytes { count_of (rooms_bits rooms.now) % 8 ≡ 0 }
    requires held { vec_len out.old + frame_number (rooms_bits rooms.now) * length rooms.now ≤ vec_capacity out.old }
    ensures text { out.new.items ≡ out.old.items ++ laced (rooms_bits rooms.now) }
    ensures capacity { vec_capacity out.old ≤ vec_capacity out.new }
{
    let kept = out.len();
    let frames = rooms[0].len() / 8;
    match out.resize(kept + frames * rooms.len(), 0) {
        Ok(()) => {}
        Err(AllocError) => unreachable!(),
    }
    let (_, to) = out.as_mut_slice().split_at_mut(kept);
    lace_rooms(to, rooms);
}

// Writes the sound bytes of all frames.
fn lace_rooms(to: &mut [u8], rooms: &[BitRoom])
    requires channel_number { 1 ≤ length rooms.now }
    requires level { IsLevel (rooms_bits rooms.now) }
    requires whole_bytes { count_of (rooms_bits rooms.now) % 8 ≡ 0 }
    requires size { length to.old ≡ frame_number (rooms_bits rooms.now) * length rooms.now }
    ensures { to.new ≡ laced (rooms_bits rooms.now) }
{
    if rooms.len() == 2 {
        lace_two(to, rooms[0].as_bytes(), rooms[1].as_bytes());
    } else {
        for c in 0..rooms.len() {
            spread(to, rooms[c].as_bytes(), rooms.len(), c);
        }
    }
}

/// Appends the sound bytes in blocks of one to six channels of equal length, held in [`BitRoom`](crate::BitRoom)s, as
/// [`push_blocks`](crate::push_blocks) does. Memory for them is reserved, so it takes none.
pub fn push_blocked_rooms(out: &mut Vec<u8>, rooms: &[BitRoom], order: BitOrder)
    requires channel_number { (1 ≤ length rooms.now) × (length rooms.now ≤ 6) }
    requires level { IsLevel (rooms_bits rooms.now) }
    requires held { vec_len out.old + blocks_size (length rooms.now) (count_of (rooms_bits rooms.now))
        ≤ vec_capacity out.old }
    ensures text { out.new.items ≡ out.old.items ++ blocked order (rooms_bits rooms.now) }
    ensures capacity { vec_capacity out.old ≤ vec_capacity out.new }
{
    let blocks = rooms[0].len().div_ceil(BLOCK_BITS) * rooms.len();
    for block in 0..blocks {
        let bytes = rooms[block % rooms.len()].as_bytes();
        push_held_block(out, bytes, block / rooms.len(), order);
    }
}

// Appends the block of a channel in a group, for which memory is reserved.
fn push_held_block(out: &mut Vec<u8>, bytes: &[u8], group: usize, order: BitOrder)
    requires in_bytes { block_bytes * group ≤ length bytes.now }
    requires held { vec_len out.old + block_bytes ≤ vec_capacity out.old }
    ensures block { out.new.items ≡
        out.old.items ++ map (ordered order) (map (slice_index bytes.now) (range_with_len (block_bytes * group) block_bytes)) }
    ensures capacity { vec_capacity out.old ≤ vec_capacity out.new }
{
    match push_block(out, bytes, group, order) {
        Ok(()) => {}
        Err(AllocError) => unreachable!(),
    }
}
