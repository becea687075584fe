//! From a recording to the bytes of a file.

ghost use Rattle.std.specs.Prelude.{◌≡◌, ◌≤◌, ◌+◌, ◌++◌, IfOk, OnOk, if◌then◌else◌, nat_eq};
ghost use Rattle.dsd_bits.specs.Limits.{most_bits};
ghost use Rattle.dsf_core.specs.Files.{IsDsf, sample_bits};
ghost use Rattle.dsf_core.specs.ReadAgain.{as_stored};
ghost use Rattle.dsf_core.specs.Writing.{data_text, dsf_text, first_text, format_text, head_text};

use crate::fields::{FIRST_SIZE, FORMAT_SIZE, HEAD_SIZE, RAW_DSD, VERSION};
use crate::writing_laws::written_is_read_again;
use chunk_core::{Order, push_u32, push_u64};
use dsd_bits::{BLOCK_BYTES, BitOrder, Description, Recording, blocks_size, push_blocks};
use std::alloc::{AllocError, Global};

// How many bytes come before the sound: two chunks, and the header of the third.
const PREFIX_SIZE: usize = FIRST_SIZE + FORMAT_SIZE + HEAD_SIZE;

// What the "Reserved" field of the format chunk holds.
const RESERVED: u32 = 0;

/// The bytes of the DSF 1.01 file that holds the recording, in this order of bits: 1 bit per sample for
/// [`BitOrder::LeastFirst`], 8 for [`BitOrder::MostFirst`]. Numbers have the lowest byte first.
///
/// The file is the chunk `DSD ` of 28 bytes, `fmt ` of 52 bytes, `data` with the blocks of the channels, the last group
/// filled up with zeros, and the tag. The pointer leads to the tag. It is 0 if the tag is empty.
///
/// A file does not store the IDs, the marks and the kept chunks.
pub fn write(alloc: Global, recording: &Recording, order: BitOrder) -> Result<Vec<u8>, AllocError>
    ensures text { IfOk result (λ file. file.items ≡ dsf_text recording.now order) }
    // What is read from it is the recording, without what a file does not store.
    ensures read_again { IfOk result (λ file. IsDsf file.items (as_stored recording.now) order) }
{
    let description = recording.description();
    let channels = recording.channels();
    let tag = description.tag();
    let size = blocks_size(channels.len(), recording.count());
    let mut out = Vec::with_capacity(alloc, PREFIX_SIZE + size + tag.len())?;
    push_head(&mut out, description, recording.count(), order)?;
    push_blocks(&mut out, channels, order)?;
    out.extend_from_slice(tag)?;
    written_is_read_again();
    Ok(out)
}

/// The 92 bytes before the sound of the DSF 1.01 file that holds a recording of this description, so that they can be
/// written before the sound is read. The file that [`write`] returns begins with them, and continues with the sound
/// bytes and the tag.
pub fn head(
    alloc: Global,
    description: &Description,
    order: BitOrder,
) -> Result<Vec<u8>, AllocError>
    ensures text { IfOk result (λ head. head.items ≡ head_text description.now order) }
{
    head_counted(alloc, description, description.count(), order)
}

/// The same for another number of bits in each channel, at most `2^36`.
pub fn head_counted(
    alloc: Global,
    description: &Description,
    count: usize,
    order: BitOrder,
) -> Result<Vec<u8>, AllocError>
    requires in_limit { count ≤ most_bits }
    ensures text { IfOk result (λ head. head.items ≡ head_text (record description.now { count = count }) order) }
{
    let mut out = Vec::with_capacity(alloc, PREFIX_SIZE)?;
    push_head(&mut out, description, count, order)?;
    Ok(out)
}

// Appends the bytes before the sound, if each channel has `count` bits.
fn push_head(
    out: &mut Vec<u8>,
    description: &Description,
    count: usize,
    order: BitOrder,
) -> Result<(), AllocError>
    requires in_limit { count ≤ most_bits }
    ensures { OnOk result (out.new.items
        ≡ out.old.items ++ head_text (record description.now { count = count }) order) }
{
    let number = description.ids().len();
    let size = blocks_size(number, count) as u64;
    let tag_size = description.tag().len() as u64;
    push_first(
        out,
        PREFIX_SIZE as u64 + size + tag_size,
        tag_place(tag_size, size),
    )?;
    push_format(
        out,
        description.layout(),
        number as u32,
        description.rate(),
        bits_per_sample(order),
        count as u64,
    )?;
    push_data_head(out, HEAD_SIZE as u64 + size)?;
    Ok(())
}

// The place of a tag after the sound, or 0 for an empty tag.
fn tag_place(tag_size: u64, size: u64) -> u64
    requires in_limit { size ≤ 51539607552 }
    ensures { result ≡ (if nat_eq tag_size 0 then 0 else 92 + size) }
{
    if tag_size == 0 {
        return 0;
    }
    PREFIX_SIZE as u64 + size
}

// Appends the first chunk, with the size of the file.
fn push_first(out: &mut Vec<u8>, total: u64, pointer: u64) -> Result<(), AllocError>
    ensures { OnOk result (out.new.items ≡ out.old.items ++ first_text total pointer) }
{
    out.extend_from_slice(b"DSD ")?;
    push_u64(out, Order::Little, FIRST_SIZE as u64)?;
    push_u64(out, Order::Little, total)?;
    push_u64(out, Order::Little, pointer)?;
    Ok(())
}

// Appends the format chunk.
fn push_format(
    out: &mut Vec<u8>,
    channel_type: u32,
    channel_number: u32,
    rate: u32,
    bits_per_sample: u32,
    count: u64,
) -> Result<(), AllocError>
    ensures { OnOk result (out.new.items
        ≡ out.old.items ++ format_text channel_type channel_number rate bits_per_sample count) }
{
    out.extend_from_slice(b"fmt ")?;
    push_u64(out, Order::Little, FORMAT_SIZE as u64)?;
    push_u32(out, Order::Little, VERSION)?;
    push_u32(out, Order::Little, RAW_DSD)?;
    push_u32(out, Order::Little, channel_type)?;
    push_u32(out, Order::Little, channel_number)?;
    push_u32(out, Order::Little, rate)?;
    push_u32(out, Order::Little, bits_per_sample)?;
    push_u64(out, Order::Little, count)?;
    push_u32(out, Order::Little, BLOCK_BYTES as u32)?;
    push_u32(out, Order::Little, RESERVED)?;
    Ok(())
}

// Appends the header of the data chunk, with its size.
fn push_data_head(out: &mut Vec<u8>, size: u64) -> Result<(), AllocError>
    ensures { OnOk result (out.new.items ≡ out.old.items ++ data_text size) }
{
    out.extend_from_slice(b"data")?;
    push_u64(out, Order::Little, size)?;
    Ok(())
}

// The bits per sample that mean an order.
fn bits_per_sample(order: BitOrder) -> u32
    ensures { result ≡ sample_bits order }
{
    match order {
        BitOrder::LeastFirst => 1,
        BitOrder::MostFirst => 8,
    }
}
