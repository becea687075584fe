//! Bits in reserved memory are written as sound bytes.

ghost use Rattle.std.specs.Prelude.{◌≡◌, ◌+◌, ◌%◌, ◌≤◌, ◌++◌, length, vec_capacity, vec_len};
ghost use Rattle.dsd_bits.specs.Channels.{IsLevel, count_of};
ghost use Rattle.dsd_bits.specs.Rooms.{rooms_bits};
ghost use Rattle.dsd_bits.specs.Sounds.{sound_size};
ghost use Rattle.interleave_core.specs.Reinterleaving.{laced_in};

use dsd_bits::{BitRoom, Interleaving, push_blocked_rooms, push_laced_rooms};

/// Appends the sound bytes of one to six channels of equal length, held in [`BitRoom`](dsd_bits::BitRoom)s, interleaved
/// as `to`. Frames hold whole bytes of each channel. Memory for the bytes is reserved, so it takes none.
pub fn push_rooms(out: &mut Vec<u8>, rooms: &[BitRoom], to: Interleaving)
    requires channel_number { (1 ≤ length rooms.now) × (length rooms.now ≤ 6) }
    requires level { IsLevel (rooms_bits rooms.now) }
    requires whole { to ≡ Interleaving.Bytes → count_of (rooms_bits rooms.now) % 8 ≡ 0 }
    requires held { vec_len out.old + sound_size to (length rooms.now) (count_of (rooms_bits rooms.now))
        ≤ vec_capacity out.old }
    ensures text { out.new.items ≡ out.old.items ++ laced_in to (rooms_bits rooms.now) }
    ensures capacity { vec_capacity out.old ≤ vec_capacity out.new }
{
    match to {
        Interleaving::Bytes => push_laced_rooms(out, rooms),
        Interleaving::Blocks(order) => push_blocked_rooms(out, rooms, order),
    }
}
