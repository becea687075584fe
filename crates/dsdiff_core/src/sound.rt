//! The sound: whole frames after the sound property.

ghost use Rattle.std.specs.Prelude.{◌≡◌, ◌≤◌, ◌*◌, ◌/◌, ◌%◌, All, IfOk, length, map};
ghost use Rattle.chunk_core.specs.Places.{span_chunk};
ghost use Rattle.dsd_bits.specs.Lacing.{unlaced_all};
ghost use Rattle.dsd_bits.specs.Limits.{most_bits};
ghost use Rattle.dsdiff_core.specs.Headers.{frames_fit};
ghost use Rattle.dsdiff_core.specs.Held.{MayBeInMemory, held};
ghost use Rattle.dsdiff_core.specs.Sounds.{stated_count, sound_leads};
ghost use Rattle.dsdiff_core.specs.Steps.{Gives};

use crate::fault::DsdiffFault;
use crate::held::Held;
use crate::spans::{first_with, is_sound_property};
use chunk_core::Span;
use dsd_bits::{Bits, LaceFault, MOST_BITS, unlace_bytes};
use std::alloc::{AllocError, Global};

/// How many bits each of `number` channels of the sound among the form's chunks has.
#[tactic(auto, unfolding(crate::specs::Sounds::stated_count))]
pub(crate) fn count_sound(file: Held, top: &[Span], number: usize) -> Result<usize, DsdiffFault>
    requires inside { All (MayBeInMemory file) top.now }
    requires some { 1 ≤ number }
    ensures exact { Gives (λ count. count) result (stated_count (held file.entry) top.now number) }
    ensures in_limit { IfOk result (λ count. count ≤ most_bits) }
{
    let Some(span) = first_with(top, *b"DSD ") else {
        return Err(DsdiffFault::NoSound);
    };
    if leads(file, top) {
        return Err(DsdiffFault::SoundBeforeProperty);
    }
    check_frames(span.size as u64, number)?;
    Ok(8 * (span.size / number))
}

/// Refuses a size that is not that of whole frames of `number` channels, within the limit.
pub(crate) fn check_frames(size: u64, number: usize) -> Result<(), DsdiffFault>
    requires { 1 ≤ number }
    ensures { Gives (λ _. tt) result (frames_fit size number) }
{
    if size % number as u64 != 0 {
        return Err(DsdiffFault::PartFrame {
            size,
            channels: number,
        });
    }
    if size / number as u64 > (MOST_BITS / 8) as u64 {
        return Err(DsdiffFault::TooLong {
            size,
            channels: number,
        });
    }
    Ok(())
}

/// The channels of whole frames of sound.
pub(crate) fn channels_of(
    alloc: Global,
    sound: &[u8],
    number: usize,
) -> Result<Vec<Bits>, AllocError>
    requires channel_number { (1 ≤ number) × (number ≤ 6) }
    requires in_limit { 8 * (length sound.now / number) ≤ most_bits }
    requires whole { length sound.now % number ≡ 0 }
    ensures { IfOk result (λ made. made.items ≡ unlaced_all sound.now number) }
{
    match unlace_bytes(alloc, sound, number) {
        Ok(channels) => Ok(channels),
        Err(LaceFault::Memory) => Err(AllocError),
        Err(LaceFault::PartFrame | LaceFault::TooFewBytes) => unreachable!(),
    }
}

// Whether the sound comes before the sound property.
fn leads(file: Held, top: &[Span]) -> bool
    requires { All (MayBeInMemory file) top.now }
    ensures { result ≡ sound_leads (map (span_chunk (held file.entry)) top.now) }
{
    for span in top {
        if is_sound_property(file, *span) {
            return false;
        }
        if span.id == *b"DSD " {
            return true;
        }
    }
    false
}
