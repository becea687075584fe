//! The bytes before the samples.

ghost use Rattle.std.specs.Prelude.{◌≡◌, ◌≤◌, ◌^◌, ◌++◌, ◌↔◌, IfSome, IfNone, OnOk, OnErr};
ghost use Rattle.wave_core.specs.Contents.{IsWaveSpec, spec_of};
ghost use Rattle.wave_core.specs.Sizes.{FitsRiff, data_size, riff_size, riff_size_of};
ghost use Rattle.wave_core.specs.Heads.{FitsIn, header_in, limit_of, size_in};
ghost use Rattle.wave_core.specs.Texts.{data_head, extension, format_of, head_of, header, header_of, masked_header, riff_head};

use crate::fault::WaveFault;
use crate::head::WaveHead;
use crate::spec::WaveSpec;
use crate::wide::push_wide_header;
use chunk_core::{Order, push_u16, push_u32};
use std::alloc::AllocError;

// How many bytes of the second form follow the field with their number.
const EXTENSION_SIZE: u16 = 22;

// The subformat of integer samples, 00000001-0000-0010-8000-00aa00389b71, as a file stores its bytes.
const PCM_SUBFORMAT: [u8; 16] = [
    1, 0, 0, 0, 0, 0, 0x10, 0, 0x80, 0, 0, 0xaa, 0, 0x38, 0x9b, 0x71,
];

// The greatest size that a chunk can have.
const LARGEST_SIZE: u64 = 0xffff_ffff;

// The sizes of the chunks that depend on the number of frames, in bytes.
#[derive(Clone, Copy)]
pub(crate) struct Sizes {
    // The RIFF chunk, which is the file without its first 8 bytes.
    pub(crate) riff_size: u32,
    // The samples.
    pub(crate) data_size: u32,
}

/// Appends the bytes before the samples: 44, or 68 for 24 bits or more than two channels. `rate` is in frames per
/// second, 1 to 6,250,000, and `width` is the bits of a sample, 16 or 24. `frames` is the number of frames that follow,
/// each of one sample for each of 1 to 6 channels.
///
/// Refusals, in this order: `TooLarge` if the size of the RIFF chunk would not fit 32 bits, `Memory`. After a refusal
/// nothing was appended.
pub fn push_header(
    out: &mut Vec<u8>,
    channels: u16,
    rate: u32,
    width: u32,
    frames: u64,
) -> Result<(), WaveFault>
    requires spec { IsWaveSpec (spec_of channels rate width) }
    ensures ok { OnOk result (out.new.items ≡ out.old.items ++ header channels rate width frames) }
    ensures fits { OnOk result (FitsRiff channels width frames) }
    ensures too_large { (result ≡ Err WaveFault.TooLarge) ↔ (2 ^ 32 ≤ riff_size channels width frames) }
    ensures unchanged { OnErr result (out.new.items ≡ out.old.items) }
{
    WaveSpec::new(channels, rate, width).push_header(out, frames)
}

impl WaveSpec {
    /// Appends the bytes before the samples of `frames` frames. Refusals as for [`push_header`].
    pub fn push_header(&self, out: &mut Vec<u8>, frames: u64) -> Result<(), WaveFault>
        ensures ok { OnOk result (out.new.items ≡ out.old.items ++ header_of self.now frames) }
        ensures fits { OnOk result (FitsRiff self.now.channels self.now.width frames) }
        ensures too_large { (result ≡ Err WaveFault.TooLarge) ↔ (2 ^ 32 ≤ riff_size_of self.now frames) }
        ensures unchanged { OnErr result (out.new.items ≡ out.old.items) }
    {
        push_narrow_header(out, self, 0, frames)
    }

    /// Appends the bytes before the samples of `frames` frames, written so: 44 or 68, and 36 more with room for sizes of 64 bits.
    ///
    /// Refusals, in this order: `TooLarge` if the size of the RIFF chunk would not fit 32 bits, or 64 if there is room
    /// for them; `Memory`. After a refusal nothing was appended.
    pub fn push_header_as(
        &self,
        out: &mut Vec<u8>,
        head: WaveHead,
        frames: u64,
    ) -> Result<(), WaveFault>
        ensures ok { OnOk result (out.new.items ≡ out.old.items ++ header_in head self.now.channels self.now.rate self.now.width frames) }
        ensures fits { OnOk result (FitsIn head self.now.channels self.now.width frames) }
        ensures too_large { (result ≡ Err WaveFault.TooLarge) ↔ (limit_of head ≤ size_in head self.now.channels self.now.width frames) }
        ensures unchanged { OnErr result (out.new.items ≡ out.old.items) }
    {
        if head.is_wide {
            push_wide_header(out, self, head.mask, frames)
        } else {
            push_narrow_header(out, self, head.mask, frames)
        }
    }
}

// Appends the bytes before the samples of `frames` frames, without room.
#[tactic(auto, unfolding(crate::specs::Texts::masked_header))]
fn push_narrow_header(
    out: &mut Vec<u8>,
    spec: &WaveSpec,
    mask: u32,
    frames: u64,
) -> Result<(), WaveFault>
    ensures ok { OnOk result (out.new.items ≡ out.old.items ++ masked_header mask spec.now.channels spec.now.rate spec.now.width frames) }
    ensures fits { OnOk result (FitsRiff spec.now.channels spec.now.width frames) }
    ensures too_large { (result ≡ Err WaveFault.TooLarge) ↔ (2 ^ 32 ≤ riff_size_of spec.now frames) }
    ensures unchanged { OnErr result (out.new.items ≡ out.old.items) }
{
    let Some(sizes) = sizes_of(spec, frames) else {
        return Err(WaveFault::TooLarge);
    };
    let mut header = Vec::with_capacity(*out.allocator(), spec.header_size() as usize)?;
    push_fields(&mut header, spec, mask, &sizes)?;
    out.extend_from_slice(&header)?;
    Ok(())
}

// The sizes for `frames` frames, if they fit.
pub(crate) fn sizes_of(spec: &WaveSpec, frames: u64) -> Option<Sizes>
    ensures data_size { IfSome result (λ sizes. sizes.data_size ≡ data_size spec.now.channels spec.now.width frames) }
    ensures riff_size { IfSome result (λ sizes. sizes.riff_size ≡ riff_size spec.now.channels spec.now.width frames) }
    ensures none { IfNone result (2 ^ 32 ≤ riff_size spec.now.channels spec.now.width frames) }
{
    let block_align = spec.block_align();
    if frames > LARGEST_SIZE {
        return None;
    }
    let data = frames * u64::from(block_align);
    let riff = spec.header_size() - 8 + data + data % 2;
    if riff > LARGEST_SIZE {
        return None;
    }
    Some(Sizes {
        riff_size: riff as u32,
        data_size: data as u32,
    })
}

// Appends the bytes before the samples of frames with these sizes.
pub(crate) fn push_fields(
    out: &mut Vec<u8>,
    spec: &WaveSpec,
    mask: u32,
    sizes: &Sizes,
) -> Result<(), AllocError>
    ensures { OnOk result (out.new.items ≡ out.old.items ++ head_of mask spec.now sizes.now.riff_size sizes.now.data_size) }
{
    push_riff_head(out, sizes.riff_size)?;
    push_format(out, spec, mask)?;
    push_data_head(out, sizes.data_size)?;
    Ok(())
}

// Appends the header of the RIFF chunk and its type.
pub(crate) fn push_riff_head(out: &mut Vec<u8>, riff_size: u32) -> Result<(), AllocError>
    ensures { OnOk result (out.new.items ≡ out.old.items ++ riff_head riff_size) }
{
    out.extend_from_slice(b"RIFF")?;
    push_u32(out, Order::Little, riff_size)?;
    out.extend_from_slice(b"WAVE")?;
    Ok(())
}

// Appends the format chunk.
pub(crate) fn push_format(out: &mut Vec<u8>, spec: &WaveSpec, mask: u32) -> Result<(), AllocError>
    ensures { OnOk result (out.new.items ≡ out.old.items ++ format_of mask spec.now) }
{
    let block_align = spec.block_align();
    out.extend_from_slice(b"fmt ")?;
    push_u32(out, Order::Little, spec.format_size())?;
    push_u16(out, Order::Little, spec.format_tag())?;
    push_u16(out, Order::Little, spec.channels)?;
    push_u32(out, Order::Little, spec.rate)?;
    push_u32(out, Order::Little, spec.rate * u32::from(block_align))?;
    push_u16(out, Order::Little, block_align)?;
    push_u16(out, Order::Little, spec.width as u16)?;
    push_extension(out, spec, mask)?;
    Ok(())
}

// Appends the further fields of the format chunk's second form.
fn push_extension(out: &mut Vec<u8>, spec: &WaveSpec, mask: u32) -> Result<(), AllocError>
    ensures { OnOk result (out.new.items ≡ out.old.items ++ extension mask spec.now.channels spec.now.width) }
{
    if !spec.is_extensible() {
        return Ok(());
    }
    push_u16(out, Order::Little, EXTENSION_SIZE)?;
    push_u16(out, Order::Little, spec.width as u16)?;
    push_u32(out, Order::Little, mask)?;
    out.extend_from_slice(&PCM_SUBFORMAT)
}

// Appends the header of the data chunk.
pub(crate) fn push_data_head(out: &mut Vec<u8>, data_size: u32) -> Result<(), AllocError>
    ensures { OnOk result (out.new.items ≡ out.old.items ++ data_head data_size) }
{
    out.extend_from_slice(b"data")?;
    push_u32(out, Order::Little, data_size)?;
    Ok(())
}
