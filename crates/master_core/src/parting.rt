//! The part of a master's channel in a range, put into reserved memory.

ghost use Rattle.std.specs.Prelude.{◌≡◌, ◌+◌, ◌-◌, ◌<◌, ◌≤◌, ◌++◌, [], length};
ghost use Rattle.cut_core.specs.Cuts.{cue_at, cue_bits, take_channels};
ghost use Rattle.cut_core.specs.Claims.{bridge_start};
ghost use Rattle.master_core.specs.Parting.{IsBestAt, IsBestPart, IsPartAdded, HasChosen, IsStepAdded, within};

use crate::choosing::chosen_at;
use cut_core::{BridgePlace, Cut};
use dsd_bits::{BitRange, BitRoom, Bits};
use trellis_core::Chosen;

/// What a master is made from: a cut, and the bits that were chosen for its bridges.
#[derive(Clone, Copy)]
pub(crate) struct MasterSource<'a> {
    /// The cut.
    pub(crate) cut: &'a Cut,
    /// The places of its bridges, in their order.
    pub(crate) places: &'a [BridgePlace],
    /// The bits that were chosen for each bridge.
    pub(crate) chosen: &'a [Chosen],
}

/// Adds the part of a channel of the master in a range to an empty [`BitRoom`](dsd_bits::BitRoom), which is large
/// enough for it.
pub(crate) fn push_part(
    room: &mut BitRoom,
    source: &MasterSource<'_>,
    channel: usize,
    range: BitRange,
)
    requires ready { HasChosen source.now }
    requires channel { channel < take_channels source.now.cut.now }
    requires empty { room.old.bits ≡ [] }
    requires in_room { range.stop - range.start ≤ room.old.most }
    ensures most { room.new.most ≡ room.old.most }
    ensures part { IsBestPart source.now.cut.now channel range room.new.bits }
{
    let cut = source.cut;
    cut.can_cut();
    push_cue_part(room, cut, channel, 0, range);
    let mut at = cue_length(cut, 0);
    for cue in 0..cut.cue_number() - 1 {
        push_step(room, source, BridgePlace { cue, channel }, at, range);
        at += cut.cue(cue).bridge;
        at += cue_length(cut, cue + 1);
    }
}

// Adds the parts in a range of the bridge at a place, which starts at a bit of the channel, and of the cue after it.
fn push_step(
    room: &mut BitRoom,
    source: &MasterSource<'_>,
    place: BridgePlace,
    at: usize,
    range: BitRange,
)
    requires ready { HasChosen source.now }
    requires channel { place.channel < take_channels source.now.cut.now }
    requires cue { place.cue + 1 < length source.now.cut.now.splice.cues }
    requires start { at ≡ bridge_start source.now.cut.now place.cue }
    requires in_room { length room.old.bits + ((range.stop - at) - (range.start - at)) ≤ room.old.most }
    ensures most { room.new.most ≡ room.old.most }
    ensures step { IsStepAdded source.now.cut.now place range room.old.bits room.new.bits }
{
    let cut = source.cut;
    cut.can_cut();
    push_bridge_part(room, source, place, counted_from(range, at));
    let next = at + cut.cue(place.cue).bridge;
    push_cue_part(
        room,
        cut,
        place.channel,
        place.cue + 1,
        counted_from(range, next),
    );
}

// How many bits a cue has.
fn cue_length(cut: &Cut, cue: usize) -> usize
    requires { cue < length cut.now.splice.cues }
    ensures { result ≡ (cue_at cut.now cue).stop - (cue_at cut.now cue).start }
{
    cut.can_cut();
    let cue = cut.cue(cue);
    cue.stop - cue.start
}

// A range of the channel, counted from a place in it.
fn counted_from(range: BitRange, at: usize) -> BitRange
    ensures start { result.start ≡ range.start - at }
    ensures stop { result.stop ≡ range.stop - at }
{
    BitRange {
        start: range.start.saturating_sub(at),
        stop: range.stop.saturating_sub(at),
    }
}

// Adds the part of a cue in a channel that is in a range of it.
fn push_cue_part(room: &mut BitRoom, cut: &Cut, channel: usize, cue: usize, range: BitRange)
    requires channel { channel < take_channels cut.now }
    requires cue { cue < length cut.now.splice.cues }
    requires in_room { length room.old.bits + (range.stop - range.start) ≤ room.old.most }
    ensures { room.new ≡ record room.old { bits = room.old.bits ++ within range (cue_bits cut.now channel cue) } }
{
    let here = cut.cued(channel, cue);
    let piece = BitRange {
        start: here.start,
        stop: here.stop,
    };
    push_within(room, here.bits, piece, range);
}

// Adds the part of the bridge at a place that is in a range of it. Its bits are looked up only if there is such a part;
// a plain cut has none.
fn push_bridge_part(
    room: &mut BitRoom,
    source: &MasterSource<'_>,
    place: BridgePlace,
    range: BitRange,
)
    requires ready { HasChosen source.now }
    requires channel { place.channel < take_channels source.now.cut.now }
    requires cue { place.cue + 1 < length source.now.cut.now.splice.cues }
    requires in_room { length room.old.bits + (range.stop - range.start) ≤ room.old.most }
    ensures most { room.new.most ≡ room.old.most }
    ensures bridged { IsPartAdded (IsBestAt source.now.cut.now place) range room.old.bits room.new.bits }
{
    source.cut.can_cut();
    let stop = range.stop.min(source.cut.cue(place.cue).bridge);
    if stop <= range.start {
        return;
    }
    match chosen_at(source.cut, source.places, source.chosen, place) {
        Some(bridge) => {
            let piece = BitRange {
                start: 0,
                stop: bridge.bits.len(),
            };
            push_within(room, &bridge.bits, piece, range);
        }
        None => {}
    }
}

// Adds the part of a piece of some bits that is in a range of the piece.
fn push_within(room: &mut BitRoom, bits: &Bits, piece: BitRange, range: BitRange)
    requires in_order { piece.start ≤ piece.stop }
    requires inside { piece.stop ≤ length bits.now }
    requires in_room { length room.old.bits + (range.stop - range.start) ≤ room.old.most }
    ensures { room.new ≡ record room.old { bits = room.old.bits ++ within range (within piece bits.now) } }
{
    let stop = range.stop.min(piece.stop - piece.start);
    let start = range.start.min(stop);
    room.push_range(bits, piece.start + start, piece.start + stop);
}
