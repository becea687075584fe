//! Where the sound of a file is, as its prefix tells.

ghost use Rattle.std.specs.Prelude.{◌≡◌, ◌≤◌, ◌+◌, ◌++◌, ◌%◌, List, ℕ, IfOk, length};
ghost use Rattle.dsd_bits.specs.declared.interleaving.Interleaving.TheVariants as Interleaving;
ghost use Rattle.dsd_bits.specs.Contents.{Content};
ghost use Rattle.dsd_bits.specs.Sounds.{HasSound, IfFound, IfMore, IfRefused, IsSound};
ghost use Rattle.dsdiff_core.specs.Files.{IsDsdiff};
ghost use Rattle.dsdiff_core.specs.Headers.{HoldsHead, IsAccepted, seek, sound_at, sound_with_head};
ghost use Rattle.dsdiff_core.specs.Walks.{IsLocated, IsStatedAt, IsWalked, without_fault};

use crate::fault::DsdiffFault;
use crate::header::{Place, check_form, find_head, read_sound};
use crate::held::whole;
use chunk_core::{Order, u64_at};
use dsd_bits::{Sound, SoundAt};
use std::alloc::{AllocError, Global};

/// What the first bytes of a DSDIFF 1.5 file tell of its sound.
#[derive(Clone, Copy)]
pub enum Located {
    /// Where the sound is, and what it is: that of every file that begins so and is accepted.
    Found(Sound),
    /// More bytes are wanted. The chunks before this place were walked, and need not be again: none of them is the
    /// sound.
    More(usize),
    /// The fault of every file that begins so: `NotDsdiff`, or `FormCut` for a form of fewer bytes than its type has.
    Refused(DsdiffFault),
    /// The head of the sound is at this place, but the chunks before it do not tell what it is: no file that begins
    /// so is accepted. Which fault it has, [`crate::describe`] tells when its end is known.
    Unstated(usize),
    /// The head of a chunk is at this place, whose data go past the form: no file that begins so is accepted. Which
    /// fault it has, [`crate::cut_fault`] tells when its length is known.
    PastForm(usize),
    /// The prefix holds all chunks of the form, and none of them is a sound: no file that begins so is accepted.
    NoSound,
}

/// Where the sound of a DSDIFF 1.5 file is, and what it is, as the first bytes of the file alone say. `from` is
/// 16, or the place that was answered for fewer first bytes of the same file: what is before it isn't looked at
/// again until the sound is found.
///
/// It fails for want of memory alone.
pub fn locate(alloc: Global, prefix: &[u8], from: usize) -> Result<Located, AllocError>
    requires walked { IsWalked prefix.now from }
    ensures stated { IfOk result (IsLocated prefix.now) }
    // By the order of refusals.
    ensures exact { IfOk result (λ x. without_fault x ≡ sound_at prefix.now) }
{
    if prefix.len() < 16 {
        return Ok(Located::More(from));
    }
    if let Err(fault) = check_form(prefix) {
        return Ok(Located::Refused(fault));
    }
    match find_head(prefix, u64_at(Order::Big, prefix, 4), from) {
        Place::Head(at) => state_sound(alloc, prefix, at),
        Place::More(at) => Ok(Located::More(at)),
        Place::Past(at) => Ok(Located::PastForm(at)),
        Place::Lost => Ok(Located::NoSound),
    }
}

// What the chunks before the head of a sound tell of it.
fn state_sound(alloc: Global, prefix: &[u8], at: usize) -> Result<Located, AllocError>
    requires { (16 ≤ at) × (at + 12 ≤ length prefix.now) }
    ensures { IfOk result (IsStatedAt (sound_with_head prefix.now at) at) }
{
    match read_sound(alloc, whole(prefix), at) {
        Ok(sound) => Ok(Located::Found(sound)),
        Err(DsdiffFault::Memory) => Err(AllocError),
        Err(_) => Ok(Located::Unstated(at)),
    }
}

/// Where the sound of a DSDIFF 1.5 file is, as [`locate`] tells it from its first byte on, without faults and
/// places:
/// - `More`: the prefix does not hold the whole head of the chunk of the sound.
/// - `Refused`: no file that begins so is accepted by [`crate::read`].
/// - `Found`: every file that begins so and is accepted has this sound: its rate, its channels and its count, and the
///   bytes of the sound are at `start`, `size` bytes.
///
/// It fails for want of memory alone.
pub fn sound_at(alloc: Global, prefix: &[u8]) -> Result<SoundAt, AllocError>
    ensures found { IfOk result (λ x. IfFound x (λ s. (rest : List ℕ) (r : Content) → IsDsdiff (prefix.now ++ rest) r
        → HasSound (prefix.now ++ rest) r s)) }
    ensures limits { IfOk result (λ x. IfFound x (λ s. IsSound s × (s.interleaving ≡ Interleaving.Bytes)
        × (s.count % 8 ≡ 0))) }
    ensures within { IfOk result (λ x. IfFound x (λ s. s.start ≤ length prefix.now)) }
    ensures refused { IfOk result (λ x. IfRefused x ((rest : List ℕ) → IsAccepted (prefix.now ++ rest) → ⊥)) }
    ensures more { IfOk result (λ x. IfMore x (HoldsHead prefix.now → ⊥)) }
    // By the order of refusals.
    ensures exact { IfOk result (λ x. x ≡ sound_at prefix.now) }
{
    answer(alloc, prefix)
}

// The same, by the order of refusals alone.
fn answer(alloc: Global, prefix: &[u8]) -> Result<SoundAt, AllocError>
    ensures { IfOk result (λ x. x ≡ sound_at prefix.now) }
{
    Ok(without_fault(locate(alloc, prefix, 16)?))
}

// The same without faults and places.
fn without_fault(located: Located) -> SoundAt
    ensures { result ≡ without_fault located }
{
    match located {
        Located::Found(sound) => SoundAt::Found(sound),
        Located::More(_) => SoundAt::More,
        Located::Refused(_) | Located::Unstated(_) | Located::PastForm(_) | Located::NoSound => {
            SoundAt::Refused
        }
    }
}
