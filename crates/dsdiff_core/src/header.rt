//! The chunks in the prefix of a file that lead to its sound.

ghost use Rattle.std.specs.Prelude.{◌≡◌, ◌≤◌, ◌+◌, IfOk, IfSome, length};
ghost use Rattle.dsdiff_core.specs.Fields.{form_size};
ghost use Rattle.dsdiff_core.specs.Headers.{data_cut, form_of, seek, sound_head_place, sound_with_head};
ghost use Rattle.dsdiff_core.specs.Held.{held};
ghost use Rattle.dsdiff_core.specs.Steps.{Gives};
ghost use Rattle.dsdiff_core.specs.Walks.{IfHead, IfPast, IfWalkedTo, IsWalked, sought_by};

use crate::fault::DsdiffFault;
use crate::form::leading_chunks;
use crate::held::Held;
use crate::property::read_property;
use crate::sound::check_frames;
use chunk_core::{ChunkFault, Order, head, id_at, u64_at};
use dsd_bits::{Interleaving, Sound};
use std::alloc::Global;

/// Where a walk over the chunks of a form came to.
#[derive(Clone, Copy)]
pub(crate) enum Place {
    /// The head of the sound.
    Head(usize),
    /// A chunk, none of those before it a sound, of which more bytes are wanted.
    More(usize),
    /// A chunk whose data go past the form, none of those before it a sound.
    Past(usize),
    /// The form's end: none of its chunks is a sound.
    Lost,
}

/// The place of the header of a file's sound, from the first bytes of the file alone; none if more bytes are needed. A
/// fault says that no file that begins like this has a sound that can be read.
pub(crate) fn find_sound(prefix: &[u8]) -> Result<Option<usize>, DsdiffFault>
    ensures exact { sound_head_place prefix.now ≡ result }
    ensures whole { IfOk result (λ x. IfSome x (λ at. (16 ≤ at) × (at + 12 ≤ length prefix.now))) }
{
    if prefix.len() < 16 {
        return Ok(None);
    }
    check_form(prefix)?;
    match find_head(prefix, u64_at(Order::Big, prefix, 4), 16) {
        Place::Head(at) => Ok(Some(at)),
        Place::More(_) => Ok(None),
        Place::Past(at) => Err(data_cut(prefix, at)),
        Place::Lost => Err(DsdiffFault::NoSound),
    }
}

/// The fault of the chunk whose header is at a place and whose data are cut.
pub(crate) fn data_cut(prefix: &[u8], place: usize) -> DsdiffFault
    requires { place + 12 ≤ length prefix.now }
    ensures { result ≡ data_cut prefix.now place }
{
    let id = id_at(prefix, place);
    let size = u64_at(Order::Big, prefix, place + 4);
    DsdiffFault::Chunk(ChunkFault::DataCut { place, id, size })
}

/// Refuses first bytes in which no form begins.
#[tactic(auto, unfolding(crate::specs::Headers::form_of))]
pub(crate) fn check_form(prefix: &[u8]) -> Result<(), DsdiffFault>
    requires { 16 ≤ length prefix.now }
    ensures { form_of prefix.now ≡ result }
{
    if id_at(prefix, 0) != *b"FRM8" || id_at(prefix, 12) != *b"DSD " {
        return Err(DsdiffFault::NotDsdiff);
    }
    let size = u64_at(Order::Big, prefix, 4);
    if size < 4 {
        return Err(DsdiffFault::FormCut { size, missing: 0 });
    }
    Ok(())
}

/// Where the head of the sound is in a form of this size, sought from a place on up to which its chunks were
/// walked.
pub(crate) fn find_head(prefix: &[u8], size: u64, from: usize) -> Place
    requires long { 16 ≤ length prefix.now }
    requires size { size ≡ form_size prefix.now }
    requires walked { IsWalked prefix.now from }
    ensures exact { seek prefix.now ≡ sought_by prefix.now result }
    ensures past { IfPast result (λ at. at + 12 ≤ length prefix.now) }
    ensures whole { IfHead result (λ at. (16 ≤ at) × (at + 12 ≤ length prefix.now)) }
    ensures walked { IfWalkedTo result (IsWalked prefix.now) }
{
    let mut at = from;
    while at as u64 <= size {
        let Some(chunk) = head(Order::Big, prefix, at) else {
            return Place::More(at);
        };
        if size - (at as u64) < chunk.size {
            return Place::Past(at);
        }
        if chunk.id == *b"DSD " {
            return Place::Head(at);
        }
        if ((prefix.len() - at - 12) as u64) < chunk.size {
            return Place::More(at);
        }
        at += 12 + chunk.size as usize + chunk.size as usize % 2;
    }
    Place::Lost
}

/// The sound whose header is at a place.
#[tactic(auto, unfolding(crate::specs::Headers::sound_with_head))]
pub(crate) fn read_sound(alloc: Global, prefix: Held, at: usize) -> Result<Sound, DsdiffFault>
    requires from { 16 ≤ at }
    requires whole { at + 12 ≤ length prefix.prefix.now }
    ensures { Gives (λ s. s) result (sound_with_head (held prefix.entry) at) }
{
    let top = leading_chunks(alloc, prefix, at)?;
    let stated = read_property(alloc, prefix, &top)?;
    let number = stated.ids.len();
    let Some(chunk) = head(Order::Big, prefix.prefix, at) else {
        return Err(DsdiffFault::NoSound);
    };
    check_frames(chunk.size, number)?;
    Ok(Sound {
        rate: stated.rate,
        channels: number,
        count: 8 * (chunk.size as usize / number),
        start: at + 12,
        size: chunk.size as usize,
        interleaving: Interleaving::Bytes,
    })
}
