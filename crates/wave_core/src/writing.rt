//! From samples to the bytes of a file.

ghost use Rattle.std.specs.Prelude.{◌≡◌, ◌↔◌, ◌++◌, All, IfOk, OnOk, None, Some};
ghost use Rattle.std.specs.List.{flat_map};
ghost use Rattle.wave_core.specs.Contents.{IsSample, IsWidth};
ghost use Rattle.wave_core.specs.Laws.{PartsJoin, SoundIsSame};
ghost use Rattle.wave_core.specs.Texts.{sample_bytes, wave_text};

use crate::fault::WaveFault;
use crate::header::{push_fields, sizes_of};
use crate::pcm::Pcm;
use crate::sound::push_sample;
use std::alloc::{AllocError, Global};

/// The bytes of the WAVE file of the samples: what [`crate::push_header`] appends, each sample as
/// [`crate::push_sample`] writes it, and what [`crate::push_pad`] appends.
///
/// Refusals, in this order: `TooLarge` if the size of the RIFF chunk would not fit 32 bits, for which no memory is
/// needed; `Memory`.
#[tactic(auto, unfolding(crate::specs::Texts::masked_header))]
pub fn write(alloc: Global, pcm: &Pcm) -> Result<Vec<u8>, WaveFault>
    ensures text { IfOk result (λ file. wave_text pcm.now ≡ Some file.items) }
    ensures too_large { (result ≡ Err WaveFault.TooLarge) ↔ (wave_text pcm.now ≡ None) }
{
    let spec = &pcm.spec;
    let frames = (pcm.samples.len() / usize::from(spec.channels)) as u64;
    let Some(sizes) = sizes_of(spec, frames) else {
        return Err(WaveFault::TooLarge);
    };
    let mut out = Vec::with_capacity(alloc, 8 + sizes.riff_size as usize)?;
    push_fields(&mut out, spec, 0, &sizes)?;
    push_samples(&mut out, spec.width, &pcm.samples)?;
    spec.push_pad(&mut out, frames)?;
    Ok(out)
}

// Appends samples of `width` bits.
fn push_samples(out: &mut Vec<u8>, width: u32, samples: &[i32]) -> Result<(), AllocError>
    requires width { IsWidth width }
    requires values { All (IsSample width) samples.now }
    ensures { OnOk result (out.new.items ≡ out.old.items ++ flat_map (sample_bytes width) samples.now) }
{
    for value in samples {
        push_sample(out, width, *value)?;
    }
    Ok(())
}

/// The law of the parts: the header, the samples of whole frames and the pad are the whole file, and if they are too
/// large there is none. The function does nothing: a caller's proof cites what it ensures.
pub fn parts_join()
    ensures { PartsJoin }
{}

/// The law of the header: after it, all files of the same samples have the same bytes, with or without room for sizes of
/// 64 bits. The function does nothing: a caller's proof cites what it ensures.
pub fn sound_is_same()
    ensures { SoundIsSame }
{}
