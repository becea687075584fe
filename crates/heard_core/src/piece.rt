//! A decoder's taps in parts that tables can sum, for each bit of a byte.

ghost use Rattle.std.specs.Prelude.{◌≡◌, ◌*◌, ◌/◌, ◌%◌, ◌^◌, ◌<◌, ◌≤◌, ◌++◌, ◌∷◌, [], ℕ, length, map, IfOk, unsigned_abs};
ghost use Rattle.std.specs.List.{range_with_len, sum_by};
ghost use Rattle.clip_core.specs.Mixes.{AreTaps};
ghost use Rattle.heard_core.specs.Pieces.{all_pieces, padded, piece};

use fir_core::{MAX_TAPS, Tables, Taps};
use std::alloc::{AllocError, Global};

/// At most 4096 of a decoder's taps, with their tables for the places that are one of the eight bits of their bytes.
#[derive(Drop)]
pub(crate) struct Piece {
    pub(crate) taps: Taps,
    pub(crate) tables: Tables,
}

/// All pieces of a decoder's taps: each part of them for each bit of a byte.
pub(crate) fn pieces_of(alloc: Global, taps: &[i32]) -> Result<Vec<Piece>, AllocError>
    requires { AreTaps (2 ^ 28) taps.now }
    ensures { IfOk result (λ made. made.items ≡ all_pieces taps.now) }
{
    let padded = padded_with_zeros(alloc, taps)?;
    first_pieces(alloc, padded.as_slice(), 8 * taps.len().div_ceil(MAX_TAPS))
}

// The first pieces of padded taps.
fn first_pieces(alloc: Global, taps: &[i32], number: usize) -> Result<Vec<Piece>, AllocError>
    requires within { (k : ℕ) → k < number → 4096 * (k / 8) < length taps.now }
    requires eights { length taps.now % 8 ≡ 0 }
    requires small { sum_by unsigned_abs taps.now ≤ 2 ^ 28 }
    ensures { IfOk result (λ made. made.items ≡ map (piece taps.now) (range_with_len 0 number)) }
{
    let mut made = Vec::new(alloc);
    for k in 0..number {
        push_piece(alloc, &mut made, taps, k)?;
    }
    Ok(made)
}

// Appends piece `k` of padded taps.
fn push_piece(
    alloc: Global,
    made: &mut Vec<Piece>,
    taps: &[i32],
    k: usize,
) -> Result<(), AllocError>
    requires within { 4096 * (k / 8) < length taps.now }
    requires eights { length taps.now % 8 ≡ 0 }
    requires small { sum_by unsigned_abs taps.now ≤ 2 ^ 28 }
    ensures { IfOk result (λ _. made.new.items ≡ made.old.items ++ piece taps.now k ∷ []) }
{
    made.push(piece_of(alloc, taps, k)?)?;
    Ok(())
}

// Taps with zeros after them, up to whole groups of eight.
fn padded_with_zeros(alloc: Global, taps: &[i32]) -> Result<Vec<i32>, AllocError>
    requires { length taps.now ≤ 65535 }
    ensures { IfOk result (λ made. made.items ≡ padded taps.now) }
{
    let mut made = Vec::from_slice(alloc, taps)?;
    made.resize(8 * taps.len().div_ceil(8), 0)?;
    Ok(made)
}

// Piece `k` of padded taps.
fn piece_of(alloc: Global, taps: &[i32], k: usize) -> Result<Piece, AllocError>
    requires within { 4096 * (k / 8) < length taps.now }
    requires eights { length taps.now % 8 ≡ 0 }
    requires small { sum_by unsigned_abs taps.now ≤ 2 ^ 28 }
    ensures { IfOk result (λ made. made ≡ piece taps.now k) }
{
    let start = MAX_TAPS * (k / 8);
    let end = (start + MAX_TAPS).min(taps.len());
    let taps = match Taps::new(alloc, &taps[start..end], 8, (k % 8) as u32, 0, 24) {
        Ok(taps) => taps,
        Err(_) => return Err(AllocError),
    };
    let tables = Tables::new(alloc, &taps)?;
    Ok(Piece { taps, tables })
}
