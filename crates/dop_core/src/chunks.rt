//! The chunks of a WAVE file.

ghost use Rattle.std.specs.Prelude.{◌≡◌, ◌≤◌, ◌+◌, IfSome, length};
ghost use Rattle.dsd_bits.specs.Ids.{same_id};
ghost use Rattle.chunk_core.specs.Numbers.{id_at};
ghost use Rattle.dop_core.specs.Fields as fields;
ghost use Rattle.dop_core.specs.Fields.{chunk_from, is_wave, next_of};

use chunk_core::{Order, id_at, u16_at, u32_at};

/// How many bytes a chunk's header has: its ID and its size.
pub(crate) const HEAD_SIZE: usize = 8;

/// The place of the first chunk, after the header of the whole and its type.
pub(crate) const FIRST_AT: usize = 12;

/// Whether this ID is at a place.
pub(crate) fn has_id(file: &[u8], at: usize, id: [u8; 4]) -> bool
    requires { at + 4 ≤ length file.now }
    ensures { result ≡ same_id (id_at file.now at) id }
{
    id_at(file, at) == id
}

/// The number of two bytes at a place.
pub(crate) fn short_at(file: &[u8], at: usize) -> u16
    requires { at + 2 ≤ length file.now }
    ensures { result ≡ fields.u16_at file.now at }
{
    u16_at(Order::Little, file, at)
}

/// The number of four bytes at a place.
pub(crate) fn long_at(file: &[u8], at: usize) -> u32
    requires { at + 4 ≤ length file.now }
    ensures { result ≡ fields.u32_at file.now at }
{
    u32_at(Order::Little, file, at)
}

/// Whether a file begins as a WAVE file.
#[tactic(auto, unfolding(crate::specs::Fields::is_wave))]
pub(crate) fn is_wave(file: &[u8]) -> bool
    ensures { result ≡ is_wave file.now }
{
    file.len() >= FIRST_AT && has_id(file, 0, *b"RIFF") && has_id(file, 8, *b"WAVE")
}

/// The place after the chunk at a place, with its pad.
pub(crate) fn next_of(file: &[u8], at: usize) -> usize
    requires { at + 8 ≤ length file.now }
    ensures { result ≡ next_of file.now at }
{
    let size = long_at(file, at + 4) as usize;
    at + HEAD_SIZE + size + size % 2
}

/// The place of the first chunk with this ID from a place on.
pub(crate) fn chunk_from(file: &[u8], at: usize, id: [u8; 4]) -> Option<usize>
    ensures exact { result ≡ chunk_from id file.now at }
    ensures inside { IfSome result (λ found. (at ≤ found) × (found + 8 ≤ length file.now)) }
{
    let mut here = at;
    while here <= file.len() && file.len() - here >= HEAD_SIZE {
        if has_id(file, here, id) {
            return Some(here);
        }
        here = next_of(file, here);
    }
    None
}
