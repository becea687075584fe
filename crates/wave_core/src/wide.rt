//! The bytes before the samples of a file with room for sizes of 64 bits (RF64, EBU Tech 3306).

ghost use Rattle.std.specs.Prelude.{◌≡◌, ◌<◌, ◌≤◌, ◌^◌, ◌++◌, ◌↔◌, IfSome, IfNone, OnOk, OnErr};
ghost use Rattle.wave_core.specs.Heads.{ds64, room, stated_size, wide_front, wide_head_of, wide_header, wide_size};
ghost use Rattle.wave_core.specs.Sizes.{data_size};

use crate::fault::WaveFault;
use crate::header::{push_data_head, push_format, push_riff_head};
use crate::spec::WaveSpec;
use chunk_core::{Order, push_u32, push_u64};
use std::alloc::AllocError;

// How many bytes of data the chunk for sizes of 64 bits has.
const ROOM_SIZE: u32 = 28;

// The chunk that keeps this room in a file that is RIFF WAVE.
const ROOM: [u8; 28] = [0; 28];

// The greatest size of 32 bits. In RF64 it says that the size is in the chunk with sizes of 64 bits.
const LARGEST_SIZE: u32 = 0xffff_ffff;

// The sizes of the chunks that depend on the number of frames, in bytes, and this number.
#[derive(Clone, Copy)]
struct WideSizes {
    // The RIFF chunk, which is the file without its first 8 bytes.
    riff_size: u64,
    // The samples.
    data_size: u64,
    // The frames.
    frames: u64,
}

/// Appends the bytes before the samples of `frames` frames, with room for sizes of 64 bits: 80 or 104.
///
/// Refusals, in this order: `TooLarge` if the size of the RIFF chunk would not fit 64 bits, `Memory`. After a refusal
/// nothing was appended.
#[tactic(auto, unfolding(crate::specs::Heads::wide_header))]
pub(crate) fn push_wide_header(
    out: &mut Vec<u8>,
    spec: &WaveSpec,
    mask: u32,
    frames: u64,
) -> Result<(), WaveFault>
    ensures ok { OnOk result (out.new.items ≡ out.old.items ++ wide_header mask spec.now.channels spec.now.rate spec.now.width frames) }
    ensures fits { OnOk result (wide_size spec.now.channels spec.now.width frames < 2 ^ 64) }
    ensures too_large { (result ≡ Err WaveFault.TooLarge) ↔ (2 ^ 64 ≤ wide_size spec.now.channels spec.now.width frames) }
    ensures unchanged { OnErr result (out.new.items ≡ out.old.items) }
{
    let Some(sizes) = wide_sizes(spec, frames) else {
        return Err(WaveFault::TooLarge);
    };
    let mut header = Vec::with_capacity(*out.allocator(), 36 + spec.header_size() as usize)?;
    push_wide_fields(&mut header, spec, mask, &sizes)?;
    out.extend_from_slice(&header)?;
    Ok(())
}

// The sizes for `frames` frames, if they fit 64 bits.
fn wide_sizes(spec: &WaveSpec, frames: u64) -> Option<WideSizes>
    ensures data_size { IfSome result (λ sizes. sizes.data_size ≡ data_size spec.now.channels spec.now.width frames) }
    ensures riff_size { IfSome result (λ sizes. sizes.riff_size ≡ wide_size spec.now.channels spec.now.width frames) }
    ensures frames { IfSome result (λ sizes. sizes.frames ≡ frames) }
    ensures fits { IfSome result (λ sizes. wide_size spec.now.channels spec.now.width frames < 2 ^ 64) }
    ensures less { IfSome result (λ sizes. sizes.data_size ≤ sizes.riff_size) }
    ensures none { IfNone result (2 ^ 64 ≤ wide_size spec.now.channels spec.now.width frames) }
{
    let data_size = frames.checked_mul(u64::from(spec.block_align()))?;
    let riff_size = data_size.checked_add(36 + spec.header_size() - 8 + data_size % 2)?;
    Some(WideSizes {
        riff_size,
        data_size,
        frames,
    })
}

// Appends the bytes before the samples of frames with these sizes.
fn push_wide_fields(
    out: &mut Vec<u8>,
    spec: &WaveSpec,
    mask: u32,
    sizes: &WideSizes,
) -> Result<(), AllocError>
    requires { sizes.now.data_size ≤ sizes.now.riff_size }
    ensures { OnOk result (out.new.items ≡ out.old.items ++ wide_head_of mask spec.now sizes.now.riff_size sizes.now.data_size sizes.now.frames) }
{
    push_wide_front(out, sizes)?;
    push_format(out, spec, mask)?;
    push_data_head(out, stated_size(sizes))?;
    Ok(())
}

// The size of the data that its chunk states.
fn stated_size(sizes: &WideSizes) -> u32
    requires { sizes.now.data_size ≤ sizes.now.riff_size }
    ensures { result ≡ stated_size sizes.now.riff_size sizes.now.data_size }
{
    if sizes.riff_size <= u64::from(LARGEST_SIZE) {
        sizes.data_size as u32
    } else {
        LARGEST_SIZE
    }
}

// Appends what comes before the format chunk.
fn push_wide_front(out: &mut Vec<u8>, sizes: &WideSizes) -> Result<(), AllocError>
    ensures { OnOk result (out.new.items ≡ out.old.items ++ wide_front sizes.now.riff_size sizes.now.data_size sizes.now.frames) }
{
    if sizes.riff_size <= u64::from(LARGEST_SIZE) {
        push_riff_head(out, sizes.riff_size as u32)?;
        push_room(out)?;
        return Ok(());
    }
    out.extend_from_slice(b"RF64")?;
    push_u32(out, Order::Little, LARGEST_SIZE)?;
    out.extend_from_slice(b"WAVE")?;
    push_ds64(out, sizes)?;
    Ok(())
}

// Appends a chunk that readers ignore, as large as the one with sizes of 64 bits.
fn push_room(out: &mut Vec<u8>) -> Result<(), AllocError>
    ensures { OnOk result (out.new.items ≡ out.old.items ++ room) }
{
    out.extend_from_slice(b"JUNK")?;
    push_u32(out, Order::Little, ROOM_SIZE)?;
    out.extend_from_slice(&ROOM)
}

// Appends the chunk with sizes of 64 bits.
fn push_ds64(out: &mut Vec<u8>, sizes: &WideSizes) -> Result<(), AllocError>
    ensures { OnOk result (out.new.items ≡ out.old.items ++ ds64 sizes.now.riff_size sizes.now.data_size sizes.now.frames) }
{
    out.extend_from_slice(b"ds64")?;
    push_u32(out, Order::Little, ROOM_SIZE)?;
    push_u64(out, Order::Little, sizes.riff_size)?;
    push_u64(out, Order::Little, sizes.data_size)?;
    push_u64(out, Order::Little, sizes.frames)?;
    push_u32(out, Order::Little, 0)?;
    Ok(())
}
