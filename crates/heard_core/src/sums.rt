//! The sums of a decoder's taps at places eight apart, part by part.

ghost use Rattle.std.specs.Prelude.{◌≡◌, ◌+◌, ◌*◌, ◌^◌, ◌<◌, ◌≤◌, ◌+ℤ◌, EachIndex, length, pos, slice_index_or, unsigned_abs};
ghost use Rattle.clip_core.specs.Mixes.{AreTaps};
ghost use Rattle.fir_core.specs.Places.{sums_from};
ghost use Rattle.fir_core.specs.Sources.{ArePlayable};
ghost use Rattle.fir_core.specs.Windows.{aligned};
ghost use Rattle.heard_core.specs.Pieces.{all_pieces, sums_at, sums_before};

use crate::piece::Piece;
use dsd_bits::Bits;
use fir_core::{MAX_TAPS, fill_sums};

/// How many sums are made at a time, so that they stay in the cache.
pub(crate) const RUN: usize = 4096;

/// Bits, and the taps that decode them with all pieces of these.
#[derive(Clone, Copy)]
pub(crate) struct Source<'a> {
    pub(crate) taps: &'a [i32],
    pub(crate) pieces: &'a [Piece],
    pub(crate) bits: &'a Bits,
    pub(crate) ghost fits: { AreTaps (2 ^ 28) taps.now },
    pub(crate) ghost whole: { pieces.now ≡ all_pieces taps.now },
}

/// The sums at places eight apart: the first is at place `place`, in bits.
pub(crate) fn sum_places(source: Source<'_>, place: usize, sums: &mut [i32])
    requires few { length sums.old ≤ 4096 }
    requires reach { place ≤ 2 ^ 36 + 65535 }
    ensures { sums.new ≡ sums_at source.entry.taps.now source.entry.bits.now place (length sums.old) }
{
    sums.fill(0);
    for p in 0..source.taps.len().div_ceil(MAX_TAPS) {
        add_part(source, p, place, sums);
    }
}

// Adds to the sums what part `p` of the taps adds. It adds nothing at places before its own first tap.
fn add_part(source: Source<'_>, p: usize, place: usize, sums: &mut [i32])
    requires within { 4096 * p < length source.taps.now }
    requires few { length sums.old ≤ 4096 }
    requires reach { place ≤ 2 ^ 36 + 65535 }
    requires so_far { sums.old ≡ sums_before source.taps.now p source.bits.now place (length sums.old) }
    ensures { sums.new ≡ sums_before source.entry.taps.now (p + 1) source.entry.bits.now place (length sums.old) }
{
    let before = MAX_TAPS * p;
    let skipped = before.saturating_sub(place).div_ceil(8);
    if sums.len() <= skipped {
        return;
    }
    let (_, later) = sums.split_at_mut(skipped);
    let first = place + 8 * skipped - before;
    add_piece(&source.pieces[8 * p + first % 8], source.bits, first, later);
}

// Adds to the sums what a piece adds.
fn add_piece(piece: &Piece, bits: &Bits, first: usize, sums: &mut [i32])
    requires tables { piece.now.tables ≡ aligned piece.now.taps.taps piece.now.taps.delay }
    requires places { ArePlayable piece.now.taps first (length sums.old) }
    requires few { length sums.old ≤ 4096 }
    requires small { EachIndex sums.old (λ i. unsigned_abs (slice_index_or sums.old i (pos 0)) ≤ 2 ^ 28) }
    ensures len { length sums.new ≡ length sums.old }
    ensures added { EachIndex sums.old (λ i. slice_index_or sums.new i (pos 0) ≡ slice_index_or sums.old i (pos 0) +ℤ slice_index_or (sums_from piece.now.taps bits.now first (length sums.old)) i (pos 0)) }
{
    let mut room = [0; RUN];
    let (more, _) = room.split_at_mut(sums.len());
    fill_sums(more, &piece.taps, &piece.tables, bits, first);
    add_all(sums, more);
}

// Adds numbers to as many sums.
fn add_all(sums: &mut [i32], more: &[i32])
    requires long { length more.now ≡ length sums.old }
    requires small { EachIndex sums.old (λ i. unsigned_abs (slice_index_or sums.old i (pos 0)) ≤ 2 ^ 28) }
    requires less { EachIndex more.now (λ i. unsigned_abs (slice_index_or more.now i (pos 0)) ≤ 2 ^ 30) }
    ensures len { length sums.new ≡ length sums.old }
    ensures added { EachIndex sums.old (λ i. slice_index_or sums.new i (pos 0) ≡ slice_index_or sums.old i (pos 0) +ℤ slice_index_or more.now i (pos 0)) }
{
    for i in 0..sums.len() {
        let sum = sums[i] + more[i];
        sums[i] = sum;
    }
}
