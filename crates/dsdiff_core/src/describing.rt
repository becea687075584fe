//! What a file holds besides the bits of its sound.

ghost use Rattle.std.specs.Prelude.{◌≡◌, ◌++◌, List, ℕ, length};
ghost use Rattle.dsdiff_core.specs.Held.{IsHeld, held};
ghost use Rattle.dsdiff_core.specs.Located.{EndsAtHead, stated_size};
ghost use Rattle.dsdiff_core.specs.SoundBytes.{description_of, with_zeros};
ghost use Rattle.dsdiff_core.specs.Steps.{Gives};

use crate::fault::DsdiffFault;
use crate::form::form_chunks;
use crate::held::Held;
use crate::marks::read_marks;
use crate::masters::master_chunks;
use crate::others::kept_chunks;
use crate::property::read_property;
use crate::sound::count_sound;
use chunk_core::{Order, u64_at};
use dsd_bits::{Description, Metadata, usual_layout};
use std::alloc::Global;

/// What a file holds besides the bits of its sound. `prefix` ends where the bytes of the sound start, and `back` is
/// what follows them. The bytes between aren't needed: whichever they are, as many as the header of the sound says,
/// this is the description of the recording that [`crate::read`] returns, or the fault with which it refuses the file.
///
/// `Memory` may come in place of any of them, and comes if the file would have `2^64` bytes or more.
pub fn describe(alloc: Global, prefix: &[u8], back: &[u8]) -> Result<Description, DsdiffFault>
    requires { EndsAtHead prefix.now }
    ensures { (sound : List ℕ) → length sound ≡ stated_size prefix.now
        → Gives (λ d. d) result (description_of (prefix.now ++ (sound ++ back.now))) }
{
    describe_around(alloc, prefix, back)
}

/// The same with zeros for the sound.
pub(crate) fn describe_around(
    alloc: Global,
    prefix: &[u8],
    back: &[u8],
) -> Result<Description, DsdiffFault>
    requires { EndsAtHead prefix.now }
    ensures { Gives (λ d. d) result (description_of (with_zeros prefix.now back.now)) }
{
    let size = u64_at(Order::Big, prefix, prefix.len() - 8);
    if u64::MAX - size < prefix.len() as u64
        || u64::MAX - size - (prefix.len() as u64) < back.len() as u64
    {
        return Err(DsdiffFault::Memory);
    }
    let hole = size as usize;
    describe_held(alloc, Held { prefix, hole, back })
}

/// The same for a file as it is held.
#[tactic(auto, unfolding(crate::specs::Reading::recording_of))]
pub(crate) fn describe_held(alloc: Global, file: Held) -> Result<Description, DsdiffFault>
    requires { IsHeld file }
    ensures { Gives (λ d. d) result (description_of (held file.entry)) }
{
    let top = form_chunks(alloc, file)?;
    let stated = read_property(alloc, file, &top)?;
    let number = stated.ids.len();
    let count = count_sound(file, &top, number)?;
    let inner = master_chunks(alloc, file, &top)?;
    let marks = read_marks(alloc, file, &inner)?;
    let others = kept_chunks(alloc, file, &stated.parts, &inner, &top)?;
    let tag = Vec::new(alloc);
    let metadata = Metadata { marks, others, tag };
    Ok(Description::new(
        stated.rate,
        count,
        stated.ids,
        usual_layout(number as u32),
        metadata,
    ))
}
