//! Where the bits of a channel that comes in parts aren't those of the cues.

ghost use Rattle.std.specs.Prelude.{◌≡◌, ◌+◌, ◌-◌, ◌*◌, ◌^◌, ◌<◌, ◌≤◌, false, length, slice_index_or, slice_range, ℕ};
ghost use Rattle.dsd_bits.specs.Shifting as bits;
ghost use Rattle.cut_core.specs.Cuts.{master_length, take_channels};
ghost use Rattle.judge_core.specs.Comparing.{AreSameBits, FindsFirst, FindsOffAfter, IsOffAt, IsOffPart, cue_start};

use cut_core::{BridgePlace, CuedBits, Cut};
use dsd_bits::{Bits, byte_from};

/// The first place of a channel whose bit isn't that of the cue there, after another part of the channel came, which
/// follows `done` bits. `first` is the first such place in those.
pub(crate) fn first_off_so_far(
    cut: &Cut,
    channel: usize,
    done: usize,
    part: &Bits,
    first: Option<usize>,
) -> Option<usize>
    requires channel { channel < take_channels cut.now }
    requires inside { done + length part.now ≤ master_length cut.now.splice.cues }
    ensures { FindsOffAfter cut.now channel done part.now first result }
{
    match first {
        Some(place) => Some(place),
        None => first_off(cut, channel, done, part),
    }
}

// The first such place of this part.
fn first_off(cut: &Cut, channel: usize, done: usize, part: &Bits) -> Option<usize>
    requires channel { channel < take_channels cut.now }
    requires inside { done + length part.now ≤ master_length cut.now.splice.cues }
    ensures { FindsFirst (IsOffPart cut.now channel done part.now) result }
{
    cut.can_cut();
    let mut start = 0;
    for cue in 0..cut.cue_number() {
        if let Some(place) = first_off_at(cut, BridgePlace { cue, channel }, start, done, part) {
            return Some(place);
        }
        start += cut.span(cue);
    }
    None
}

// The first such place in a cue that starts at a place of the channel.
fn first_off_at(cut: &Cut, at: BridgePlace, start: usize, done: usize, part: &Bits) -> Option<usize>
    requires channel { at.channel < take_channels cut.now }
    requires cue { at.cue < length cut.now.splice.cues }
    requires start { start ≡ cue_start cut.now at.cue }
    requires inside { done + length part.now ≤ master_length cut.now.splice.cues }
    ensures { FindsFirst (IsOffAt cut.now at.channel at.cue done part.now) result }
{
    cut.can_cut();
    let here = cut.cued(at.channel, at.cue);
    let from = start.max(done);
    let to = (start + (here.stop - here.start)).min(done + part.len());
    if to <= from {
        return None;
    }
    let own = here.start + (from - start);
    let alike = alike_bits(part, from - done, here.bits, own, to - from);
    for place in (from + alike)..to {
        if part.get(place - done) != cued_bit(here, place - start) {
            return Some(place);
        }
    }
    None
}

// The bit of a cue at one of its places.
fn cued_bit(cue: CuedBits<'_>, place: usize) -> bool
    requires inside { place < cue.stop - cue.start }
    requires there { cue.stop ≤ length cue.bits.now }
    ensures { result ≡ slice_index_or (slice_range cue.entry.bits.now cue.entry.start cue.entry.stop) place false }
{
    cue.bits.get(cue.start + place)
}

// How many bits of a part of a channel, from one place on, equal those of a cue from another place on, counted in whole
// groups of eight.
fn alike_bits(part: &Bits, at: usize, cue: &Bits, own: usize, most: usize) -> usize
    requires part { at + most ≤ length part.now }
    requires cue { own + most ≤ length cue.now }
    ensures few { result ≤ most }
    ensures alike { AreSameBits part.now at cue.now own result }
{
    8 * alike_eights(part.as_bytes(), at, cue.as_bytes(), own, most / 8)
}

// How many groups of eight packed bits, from one place on, equal those of others from another place on, before the
// first that differ.
fn alike_eights(part: &[u8], at: usize, cue: &[u8], own: usize, most: usize) -> usize
    requires part { at + 8 * most ≤ 2 ^ 36 }
    requires cue { own + 8 * most ≤ 2 ^ 36 }
    ensures few { result ≤ most }
    ensures alike { (k : ℕ) → k < result → bits.byte_from part.now (at + 8 * k) ≡ bits.byte_from cue.now (own + 8 * k) }
{
    for k in 0..most {
        if byte_from(part, at + 8 * k) != byte_from(cue, own + 8 * k) {
            return k;
        }
    }
    most
}
