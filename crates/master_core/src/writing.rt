//! The sound of a master, written group by group of its channels' blocks from cues and bridges. All memory that it
//! takes is reserved before.

ghost use Rattle.std.specs.Prelude.{◌≡◌, ◌+◌, ◌-◌, ◌*◌, ◌/◌, ◌%◌, ◌<◌, ◌≤◌, ◌^◌, All, IfOk, OnErr, OnOk, length, map, vec_capacity};
ghost use Rattle.std.specs.Io.KnownBytes.{Appends};
ghost use Rattle.chunk_core.specs.Outlets.{AppendsPrefix, outlet_failures};
ghost use Rattle.dsd_bits.specs.Channels.{IsLevel, count_of};
ghost use Rattle.dsd_bits.specs.Rooms.{rooms_bits};
ghost use Rattle.dsd_bits.specs.Sounds.{sound_size};
ghost use Rattle.interleave_core.specs.Reinterleaving.{laced_in};
ghost use Rattle.cut_core.specs.Cuts.{master_length, take_channels};
ghost use Rattle.master_core.specs.Parting.{AreBestParts, IsBestPart, HasChosen};
ghost use Rattle.master_core.specs.Writing.{AreRooms, CountsFailure, HasOneBest, IsRoomFor, OnBytes, WritesBest, WritesBestPrefix, WritesPart, WritesPartPrefix};

use crate::parting::{MasterSource, push_part};
use chunk_core::{Device, Outlet};
use cut_core::Cut;
use dsd_bits::{BitRange, BitRoom, Interleaving};
use interleave_core::{push_rooms, segment_bits};
use std::alloc::{AllocError, Global};
use std::io::Write;

/// The memory with which a master is written: for a group of the blocks of each channel, and for the bytes of that
/// group.
#[derive(Drop)]
pub struct MasterRoom {
    rooms: Vec<BitRoom>,
    out: Vec<u8>,
    stretch: usize,
}

/// The memory with which a master of a cut is written: at most 65,536 bytes of bits, and as many of sound bytes. Err is
/// out of memory.
pub fn master_room(alloc: Global, cut: &Cut) -> Result<MasterRoom, AllocError>
    ensures { IfOk result (IsRoomFor cut.now) }
{
    cut.can_cut();
    let stretch = segment_bits(cut.channel_number());
    let rooms = bit_rooms(alloc, cut.channel_number(), stretch)?;
    let out = Vec::with_capacity(alloc, 65_536)?;
    Ok(MasterRoom {
        rooms,
        out,
        stretch,
    })
}

// As many `BitRoom`s as channels, each for `most` bits.
fn bit_rooms(alloc: Global, number: usize, most: usize) -> Result<Vec<BitRoom>, AllocError>
    requires { most ≤ 2 ^ 36 }
    ensures { IfOk result (λ made. AreRooms number most made.items) }
{
    let mut made = Vec::with_capacity(alloc, number)?;
    for k in 0..number {
        made.push_reserved(BitRoom::new(alloc, most)?);
    }
    Ok(made)
}

/// The law of best masters: bits that were chosen for all bridges make one list of best channels, and there is no
/// other. It does nothing.
pub(crate) fn has_one_best(source: &MasterSource<'_>)
    requires { HasChosen source.now }
    ensures { HasOneBest source.now.cut.now }
{
    source.cut.can_cut();
}

/// Appends the sound bytes of the best master, interleaved as `to`. It takes no memory: that was reserved for the cut
/// by [`master_room`].
///
/// Refusal: `Device` at the first write that returns an error or accepts nothing; a prefix of the bytes was written.
pub(crate) fn write_sound<W: Write>(
    source: &MasterSource<'_>,
    to: Interleaving,
    room: &mut MasterRoom,
    outlet: &mut Outlet<W>,
) -> Result<(), Device>
    requires ready { HasChosen source.now }
    requires whole { to ≡ Interleaving.Bytes → master_length source.now.cut.now.splice.cues % 8 ≡ 0 }
    requires room { IsRoomFor source.now.cut.now room.old }
    requires outlet_ready { outlet_failures outlet.old < 2 ^ 64 - 1 }
    ensures room { IsRoomFor source.now.cut.now room.new }
    ensures ok { OnOk result (OnBytes W.contents outlet.old outlet.new (WritesBest source.now.cut.now to)) }
    ensures prefix { OnErr result (OnBytes W.contents outlet.old outlet.new (WritesBestPrefix source.now.cut.now to)) }
    ensures failures { CountsFailure result outlet.old outlet.new }
{
    source.cut.can_cut();
    has_one_best(source);
    let length = source.cut.length();
    let mut from = 0;
    while from < length {
        let stop = from + room.stretch.min(length - from);
        write_stretch(source, to, BitRange { start: from, stop }, room, outlet)?;
        from = stop;
    }
    Ok(())
}

// Appends the sound bytes of the part of the best master in a range.
fn write_stretch<W: Write>(
    source: &MasterSource<'_>,
    to: Interleaving,
    range: BitRange,
    room: &mut MasterRoom,
    outlet: &mut Outlet<W>,
) -> Result<(), Device>
    requires ready { HasChosen source.now }
    requires whole { to ≡ Interleaving.Bytes → (range.stop - range.start) % 8 ≡ 0 }
    requires inside { range.stop ≤ master_length source.now.cut.now.splice.cues }
    requires room { IsRoomFor source.now.cut.now room.old }
    requires fits { range.stop - range.start ≤ room.old.stretch }
    requires outlet_ready { outlet_failures outlet.old < 2 ^ 64 - 1 }
    ensures room { IsRoomFor source.now.cut.now room.new }
    ensures stretch { room.new.stretch ≡ room.old.stretch }
    ensures ok { OnOk result (OnBytes W.contents outlet.old outlet.new (WritesPart source.now.cut.now to range)) }
    ensures prefix { OnErr result (OnBytes W.contents outlet.old outlet.new
        (WritesPartPrefix source.now.cut.now to range)) }
    ensures failures { CountsFailure result outlet.old outlet.new }
{
    source.cut.can_cut();
    fill_rooms(&mut room.rooms, source, range);
    room.out.clear();
    push_rooms(&mut room.out, &room.rooms, to);
    outlet.put_all(&room.out)
}

// Fills the `BitRoom` of each channel with its part in a range.
fn fill_rooms(rooms: &mut Vec<BitRoom>, source: &MasterSource<'_>, range: BitRange)
    requires ready { HasChosen source.now }
    requires number { length rooms.old.items ≡ take_channels source.now.cut.now }
    requires fits { All (λ room. range.stop - range.start ≤ room.most) rooms.old.items }
    ensures most { map (λ room. room.most) rooms.new.items ≡ map (λ room. room.most) rooms.old.items }
    ensures parts { AreBestParts source.now.cut.now range (rooms_bits rooms.new.items) }
{
    for channel in 0..rooms.len() {
        fill_room(&mut rooms[channel], source, channel, range);
    }
}

// Fills the `BitRoom` of a channel.
fn fill_room(room: &mut BitRoom, source: &MasterSource<'_>, channel: usize, range: BitRange)
    requires ready { HasChosen source.now }
    requires channel { channel < take_channels source.now.cut.now }
    requires in_room { range.stop - range.start ≤ room.old.most }
    ensures most { room.new.most ≡ room.old.most }
    ensures part { IsBestPart source.now.cut.now channel range room.new.bits }
{
    room.clear();
    push_part(room, source, channel, range);
}
