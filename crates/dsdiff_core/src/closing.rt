//! What the bytes around the sound of a file say about it.

ghost use Rattle.std.specs.Prelude.{◌≡◌, ◌≤◌, ◌<◌, ◌+◌, ◌-◌, ◌++◌, ◌↔◌, List, ℕ, IfErr, IfOk, Err, Some, length, replicate, true};
ghost use Rattle.std.specs.Result.{result_ok};
ghost use Rattle.dsd_bits.specs.declared.sound.Sound.{Sound};
ghost use Rattle.dsdiff_core.specs.Cuts.{EndsAtChunk, cut_fault, last_size};
ghost use Rattle.dsdiff_core.specs.Fields.{form_end};
ghost use Rattle.dsdiff_core.specs.Headers.{EndsAt, EndsAtSound, IsAccepted, left_after, size_at};
ghost use Rattle.dsdiff_core.specs.Located.{EndsAtHead, stated_size};
ghost use Rattle.dsdiff_core.specs.Outlines.{StatesOutline};
ghost use Rattle.dsdiff_core.specs.Reading.{recording_of};
ghost use Rattle.dsdiff_core.specs.SoundBytes.{description_of, with_zeros};
ghost use Rattle.dsdiff_core.specs.Steps.{Fails};

use crate::describing::{describe, describe_around};
use crate::fault::DsdiffFault;
use crate::header::data_cut;
use chunk_core::{Order, u64_at};
use dsd_bits::{Description, Recording};
use std::alloc::{AllocError, Global};

/// How many bytes of the form follow the sound of a file that begins with `prefix`, which ends where the sound starts:
/// its pad and the later chunks. The last of these bytes may be missing if it is a pad.
///
/// It takes no memory.
pub fn bytes_after_sound(prefix: &[u8]) -> u64
    requires { EndsAtHead prefix.now }
    ensures value { result ≡ left_after prefix.now (stated_size prefix.now) }
    ensures stated { (s : Sound) → EndsAt prefix.now s → result ≡ left_after prefix.now s.size }
{
    let at = prefix.len() - 12;
    size_at(prefix, 0) - at as u64 - size_at(prefix, at)
}

// The size in the header at a place.
fn size_at(prefix: &[u8], at: usize) -> u64
    requires { at + 12 ≤ length prefix.now }
    ensures { result ≡ size_at prefix.now at }
{
    u64_at(Order::Big, prefix, at + 4)
}

/// Whether a file is accepted that is `prefix`, which ends where the sound starts, then as many zero bytes as the sound
/// has, then `back`. Which bytes the sound has does not matter ([`crate::bytes_of_sound_do_not_matter`]).
///
/// The only refusal is out of memory.
pub fn closes(alloc: Global, prefix: &[u8], back: &[u8]) -> Result<bool, AllocError>
    requires { EndsAtSound prefix.now }
    ensures { (s : Sound) → EndsAt prefix.now s → IfOk result (λ b. (b ≡ true)
        ↔ IsAccepted (prefix.now ++ (replicate s.size 0 ++ back.now))) }
{
    Ok(stated_around(alloc, prefix, back)?.is_some())
}

/// What a file tells beside its bits that is `prefix`, which ends where the sound starts, as many bytes as the
/// sound has, and `back`: its recording with channels of no bits, or the fault with which [`crate::read`] refuses it.
/// Which bytes the sound has does not matter.
///
/// `Memory` may come in place of any of them.
pub fn outline(alloc: Global, prefix: &[u8], back: &[u8]) -> Result<Recording, DsdiffFault>
    requires { EndsAtSound prefix.now }
    ensures stated { (s : Sound) → EndsAt prefix.now s → IfOk result (λ r. StatesOutline prefix.now s back.now (Some r)) }
    ensures fault { IfErr result (λ e. (sound : List ℕ) → length sound ≡ stated_size prefix.now
        → Fails e (recording_of (prefix.now ++ (sound ++ back.now)))) }
{
    let description = describe(alloc, prefix, back)?;
    Ok(Recording::silent(alloc, description)?)
}

/// The fault of a file of `total` bytes that begins with `prefix`, which ends with the head of a chunk of the form,
/// where the data of that chunk end after the form or the file: `FormCut` where the form does, and `Chunk` with
/// `DataCut` otherwise.
///
/// It takes no memory.
pub fn cut_fault(prefix: &[u8], total: u64) -> DsdiffFault
    requires { EndsAtChunk prefix.now }
    ensures value { result ≡ cut_fault prefix.now total }
    ensures fault { (rest : List ℕ) → length (prefix.now ++ rest) ≡ total
        → form_end (prefix.now ++ rest) < length prefix.now + last_size prefix.now
        → recording_of (prefix.now ++ rest) ≡ Err result }
{
    fault_stated(prefix, total)
}

// The same, by the size of the form.
fn fault_stated(prefix: &[u8], total: u64) -> DsdiffFault
    requires { 12 ≤ length prefix.now }
    ensures { result ≡ cut_fault prefix.now total }
{
    let size = u64_at(Order::Big, prefix, 4);
    if total < 11 || total - 11 < size {
        return DsdiffFault::FormCut {
            size,
            missing: size - total.saturating_sub(12),
        };
    }
    data_cut(prefix, prefix.len() - 12)
}

// What is described, if it is accepted.
fn stated_around(
    alloc: Global,
    prefix: &[u8],
    back: &[u8],
) -> Result<Option<Description>, AllocError>
    requires { EndsAtHead prefix.now }
    ensures { IfOk result (λ o. o ≡ result_ok (description_of (with_zeros prefix.now back.now))) }
{
    match describe_around(alloc, prefix, back) {
        Ok(description) => Ok(Some(description)),
        Err(DsdiffFault::Memory) => Err(AllocError),
        Err(_) => Ok(None),
    }
}
