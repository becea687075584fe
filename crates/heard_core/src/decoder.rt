//! The sound of stored bits, decoded by a low-pass.

ghost use Rattle.std.specs.Prelude.{◌≡◌, ◌+◌, ◌-◌, ◌*◌, ◌/◌, ◌%◌, ◌^◌, ◌<◌, ◌≤◌, EachIndex, length, pos, slice_index_or, unsigned_abs};
ghost use Rattle.std.specs.Int.{div_ceil};
ghost use Rattle.fir_core.specs.Convolution.{conv};
ghost use Rattle.heard_core.specs.Sounds.{decoded_from};

use crate::piece::{Piece, pieces_of};
use crate::sums::{RUN, Source, sum_places};
use dsd_bits::Bits;
use std::alloc::{AllocError, Global};
use std::marker::Model;

/// The taps of a low-pass that decodes stored bits to their sound at every place, with what each byte adds to it.
/// Contracts see it as its taps. It holds about 1 KiB for each of them.
#[derive(Drop)]
pub struct Decoder {
    taps: Vec<i32>,
    pieces: Vec<Piece>,
}

impl Model for Decoder {
    ghost use Rattle.std.specs.Prelude.{ℤ, List};
    ghost use Rattle.heard_core.specs.DecoderView.{IsDecoder, taps_of};

    ghost Value = { List ℤ };

    ghost view = { taps_of };

    ghost invariant = { IsDecoder };
}

impl Decoder {
    ghost use Rattle.std.specs.Prelude.{◌≡◌, ◌+◌, ◌^◌, ◌≤◌, EachIndex, IfOk, length, pos, slice_index_or, unsigned_abs};
    ghost use Rattle.clip_core.specs.Mixes.{AreTaps};
    ghost use Rattle.heard_core.specs.Sounds.{decoded_from};

    /// The decoder with these taps. The only refusal is out of memory.
    pub fn new(alloc: Global, taps: &[i32]) -> Result<Decoder, AllocError>
        requires { AreTaps (2 ^ 28) taps.now }
        ensures { IfOk result (λ made. made ≡ taps.now) }
    {
        let taps = Vec::from_slice(alloc, taps)?;
        let pieces = pieces_of(alloc, taps.as_slice())?;
        Ok(Decoder { taps, pieces })
    }

    /// The sound of a channel's bits from bit `first` on: at each bit the sum of the taps, whose middle tap is at the
    /// bit, times the signal. A stored 1 counts +1, a stored 0 counts -1, and what is outside the recording counts 0.
    /// It takes no memory.
    pub fn decode(&self, bits: &Bits, first: usize, sound: &mut [i32])
        requires { first + length sound.old ≤ 2 ^ 36 }
        ensures value { sound.new ≡ decoded_from self.now bits.now first (length sound.old) }
        ensures bound { EachIndex sound.new (λ i. unsigned_abs (slice_index_or sound.new i (pos 0)) ≤ 2 ^ 28) }
    {
        let source = Source {
            taps: self.taps.as_slice(),
            pieces: self.pieces.as_slice(),
            bits,
        };
        decode_all(source, first, sound);
    }
}

// The sound of bits, tile by tile.
fn decode_all(source: Source<'_>, first: usize, sound: &mut [i32])
    requires { first + length sound.old ≤ 2 ^ 36 }
    ensures { sound.new ≡ decoded_from source.entry.taps.now source.entry.bits.now first (length sound.old) }
{
    let number = sound.len();
    for tile in 0..number.div_ceil(8 * RUN) {
        let start = tile * (8 * RUN);
        let end = (start + 8 * RUN).min(number);
        decode_tile(source, first + start, &mut sound[start..end]);
    }
}

// The sound of at most as many bits as there are in eight runs of sums, one for each bit of a byte.
fn decode_tile(source: Source<'_>, first: usize, sound: &mut [i32])
    requires few { length sound.old ≤ 32768 }
    requires reach { first ≤ 2 ^ 36 }
    ensures { sound.new ≡ decoded_from source.entry.taps.now source.entry.bits.now first (length sound.old) }
{
    let place = first + source.taps.len() / 2;
    let mut room = [0; RUN];
    for turn in 0..8 {
        decode_turn(source, place, turn, &mut room, sound);
    }
}

// The sound of one bit of each byte, the first at place `place + turn`. What `room` has is written over.
fn decode_turn(
    source: Source<'_>,
    place: usize,
    turn: usize,
    room: &mut [i32; RUN],
    sound: &mut [i32],
)
    requires turn { turn < 8 }
    requires few { length sound.old ≤ 32768 }
    requires reach { place ≤ 2 ^ 36 + 32767 }
    ensures len { length sound.new ≡ length sound.old }
    ensures written { EachIndex sound.old (λ i. i % 8 ≡ turn → slice_index_or sound.new i (pos 0) ≡ conv source.entry.taps.now source.entry.bits.now (i + place)) }
    ensures others { EachIndex sound.old (λ i. i % 8 < turn → slice_index_or sound.new i (pos 0) ≡ slice_index_or sound.old i (pos 0)) }
{
    let number = sound.len().saturating_sub(turn).div_ceil(8);
    let (sums, _) = room.split_at_mut(number);
    sum_places(source, place + turn, sums);
    spread(sums, turn, sound);
}

// Writes numbers at every eighth place, from place `turn` on.
fn spread(sums: &[i32], turn: usize, sound: &mut [i32])
    requires turn { turn < 8 }
    requires long { length sums.now ≡ div_ceil (length sound.old - turn) 8 }
    requires small { EachIndex sums.now (λ j. unsigned_abs (slice_index_or sums.now j (pos 0)) ≤ 2 ^ 28) }
    ensures len { length sound.new ≡ length sound.old }
    ensures written { EachIndex sums.now (λ j. slice_index_or sound.new (8 * j + turn) (pos 0) ≡ slice_index_or sums.now j (pos 0)) }
    ensures others { EachIndex sound.old (λ i. i % 8 < turn → slice_index_or sound.new i (pos 0) ≡ slice_index_or sound.old i (pos 0)) }
{
    for (j, sum) in sums.iter().enumerate() {
        sound[8 * j + turn] = *sum;
    }
}
